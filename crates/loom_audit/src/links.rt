//! Wires as links between points by number.
ghost use Rattle.std.specs.Prelude.{◌≡◌, IfOk};
ghost use Rattle.loom_types.specs.WireTree.{joint_of};
ghost use Rattle.loom_audit.specs.EndKeys.{AreLinksOf};

use crate::end_counts::end_key;
use indexmap::IndexSet;
use loom_base::NoMemory;
use loom_types::End;
use std::alloc::Global;

/// For each wire the numbers of the two points at which its ends lie.
#[derive(Drop)]
pub(crate) struct Links {
    pub(crate) pairs: Vec<(usize, usize)>,
    /// Points are numbered from 0.
    pub(crate) point_count: usize,
}

/// The end that stands for the point at which an end lies: the two sides of a pin are one point.
fn joint(end: End) -> End
    ensures { result ≡ joint_of end }
{
    match end {
        End::Pin { coupler, pin, side } => End::Pin {
            coupler,
            pin,
            side: if side == 2 { 1 } else { side },
        },
        End::Cavity(_) | End::Splice { .. } => end,
    }
}

/// The wires as links.
pub(crate) fn links_of(alloc: Global, wires: &[(End, End)]) -> Result<Links, NoMemory>
    ensures { IfOk result (λ links. AreLinksOf wires.now links.pairs.items links.point_count) }
{
    let mut points = IndexSet::new(alloc);
    let mut pairs = Vec::new(alloc);
    for wire in wires {
        let (start, _) = points.insert_full(end_key(joint(wire.0)))?;
        let (finish, _) = points.insert_full(end_key(joint(wire.1)))?;
        pairs.push((start, finish))?;
    }
    Ok(Links {
        pairs,
        point_count: points.len(),
    })
}
