//! How often ends stand in a list.
ghost use Rattle.std.specs.Prelude.{◌≡◌, ◌+◌, ◌<◌, IfOk, OnOk, if◌then◌else◌};
ghost use Rattle.loom_types.specs.declared.wire.End.{End as OneEnd};
ghost use Rattle.loom_types.specs.WireTree.{is_same_end};
ghost use Rattle.loom_audit.specs.EndKeys.{key_of, count_in, AreCounts};

use loom_base::NoMemory;
use loom_types::End;
use std::alloc::Global;
use std::collections::HashMap;

/// An end as tables find it: a number for its kind, and up to three for the rest.
pub(crate) type EndKey = (u32, u32, u32, u32);

pub(crate) fn end_key(end: End) -> EndKey
    ensures { result ≡ key_of end }
{
    match end {
        End::Cavity(cavity) => (0, cavity.0, 0, 0),
        End::Splice { node, ordinal } => (1, node.0, ordinal, 0),
        End::Pin { coupler, pin, side } => (2, coupler.0, u32::from(pin), side),
    }
}

/// How often an end was counted.
pub(crate) fn count_of(counts: &HashMap<EndKey, usize>, end: End) -> usize
    ensures { result ≡ count_in counts.now end }
{
    counts.get(&end_key(end)).copied().unwrap_or(0)
}

/// Counts an end once more. The result is how often it was counted before.
pub(crate) fn count_more(counts: &mut HashMap<EndKey, usize>, end: End) -> Result<usize, NoMemory>
    requires few { (e : OneEnd) → count_in counts.old e < usize.MAX }
    ensures before { IfOk result (λ before. before ≡ count_in counts.old end) }
    ensures more { OnOk result ((e : OneEnd) → count_in counts.new e
        ≡ count_in counts.old e + (if is_same_end e end then 1 else 0)) }
{
    let before = count_of(counts, end);
    counts.insert(end_key(end), before + 1)?;
    Ok(before)
}

/// How often each end stands in a list.
pub(crate) fn counted(alloc: Global, ends: &[End]) -> Result<HashMap<EndKey, usize>, NoMemory>
    ensures { IfOk result (AreCounts ends.now) }
{
    let mut counts = HashMap::new(alloc);
    for end in ends {
        count_more(&mut counts, *end)?;
    }
    Ok(counts)
}
