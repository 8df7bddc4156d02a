ghost use Rattle.std.specs.Prelude.{◌≡◌, ◌+◌, ◌<◌, ◌≤◌, OnOk, IsTrue};
ghost use Rattle.std.specs.BTreeMap.{get, is_at};
ghost use Rattle.loom_rules.specs.Tallies.{noted, IsKept, IsNoted};

use loom_base::NoMemory;
use std::collections::BTreeMap;

/// How many wires have a place, and the number of the last of them, counted from 1. A wire that has
/// the place twice is the last one already, and counts once.
#[derive(Clone, Copy, Debug)]
pub(crate) struct Tally {
    pub(crate) count: u32,
    pub(crate) last: u32,
}

/// The tally after a wire that has the place once more.
pub(crate) fn tally_with(earlier: Option<Tally>, number: u32) -> Tally
    requires from_one { 1 ≤ number }
    requires kept { IsKept number earlier }
    ensures value { result ≡ noted number earlier }
    ensures kept { IsKept number (Some result) }
{
    match earlier {
        Some(tally) if tally.last == number => tally,
        Some(tally) => Tally {
            count: tally.count + 1,
            last: number,
        },
        None => Tally {
            count: 1,
            last: number,
        },
    }
}

/// Notes that the wire of that number has the place.
pub(crate) fn note<K: Ord + Drop>(
    tallies: &mut BTreeMap<K, Tally>,
    place: K,
    number: u32,
) -> Result<(), NoMemory>
    requires from_one { 1 ≤ number }
    requires kept { (q : K) → IsKept number (get K.cmp tallies.old q) }
    ensures noted { OnOk result
        (IsNoted number (is_at (K.cmp place)) (get K.cmp tallies.old) (get K.cmp tallies.new)) }
    ensures kept { OnOk result ((q : K) → IsKept number (get K.cmp tallies.new q)) }
{
    let tally = tally_with(tallies.get(&place).copied(), number);
    tallies.insert(place, tally)?;
    Ok(())
}
