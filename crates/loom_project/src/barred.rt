ghost use Rattle.std.specs.Prelude.{◌≡◌, ◌<◌, ◌≤◌, ◌==◌, ◌++◌, ◌∷◌, All, length, map, filter, slice_index_or, [], IfOk, OnOk, if◌then◌else◌};
ghost use Rattle.std.specs.List.{list_any, range_with_len};

use loom_base::{List, NoMemory, SegmentNo};
use std::alloc::Global;

/// Whether a class is among those that a segment bars.
pub fn is_among(bars: &[u32], class: u32) -> bool
    ensures { result ≡ list_any (λ bar. bar == class) bars.now }
{
    bars.iter().any(|&bar| bar == class)
}

/// Appends a segment where it is barred.
fn push_if(
    barred: &mut List<SegmentNo>,
    is_barred: bool,
    segment: SegmentNo,
) -> Result<(), NoMemory>
    ensures { OnOk result (barred.new ≡ barred.old ++ (if is_barred then segment ∷ [] else [])) }
{
    if is_barred {
        barred.push(segment)?;
    }
    Ok(())
}

/// The segments that bar a class, rising, where each segment has the list of the classes that it
/// bars.
pub fn barred_segments(
    alloc: Global,
    bars: &[List<u32>],
    class: u32,
) -> Result<List<SegmentNo>, NoMemory>
    requires { length bars.now ≤ 4096 }
    ensures barred { IfOk result (λ barred. map (λ s. s.0) barred
        ≡ filter (λ s. list_any (λ bar. bar == class) (slice_index_or bars.now s []))
        (range_with_len 0 (length bars.now))) }
    ensures within { IfOk result (All (λ s. s.0 < length bars.now)) }
{
    let mut barred = List::new(alloc);
    for (i, classes) in bars.iter().enumerate() {
        let is_barred = is_among(classes.as_slice(), class);
        push_if(&mut barred, is_barred, SegmentNo(i as u32))?;
    }
    Ok(barred)
}
