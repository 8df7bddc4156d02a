ghost use Rattle.std.specs.Prelude.{◌≡◌, IfOk};
ghost use Rattle.loom_types.specs.PinLines.{pin_in};
ghost use Rattle.loom_audit.specs.FirstLines.{FindsFirst};

use loom_base::{List, NetNo, NoMemory, SegmentNo};
use loom_types::PinLine;
use std::alloc::Global;
use std::collections::HashMap;
use std::marker::Model;

/// Lines that give the pins of crossings, found by net, coupler and ordinal. Contracts see the
/// lines.
#[derive(Drop)]
pub(crate) struct PinIndex {
    lines: List<PinLine>,
    /// The place of the first line of each crossing.
    firsts: HashMap<(u32, u32, u32), usize>,
}

impl Model for PinIndex {
    ghost use Rattle.std.specs.Prelude.{List as Items};
    ghost use Rattle.loom_types.specs.declared.plan.PinLine.{PinLine as OneLine};

    ghost Value = { Items OneLine };

    ghost view = { λ index. index.lines };

    ghost use Rattle.loom_audit.specs.FirstLines.{FindsFirst};

    ghost invariant = { λ index. FindsFirst index.lines index.firsts };
}

impl PinIndex {
    /// An index of these lines.
    pub fn new(alloc: Global, lines: &[PinLine]) -> Result<PinIndex, NoMemory>
        ensures { IfOk result (λ index. index ≡ lines.now) }
    {
        Ok(PinIndex {
            lines: List::from_slice(alloc, lines)?,
            firsts: first_places(alloc, lines)?,
        })
    }

    /// The pin of a net's crossing by the first line that gives it; 0 where no line does.
    pub fn pin(&self, net: NetNo, coupler: SegmentNo, ordinal: u32) -> u16
        ensures { result ≡ pin_in self.now net.0 coupler.0 ordinal }
    {
        match self.firsts.get(&(net.0, coupler.0, ordinal)) {
            Some(place) => self.lines.as_slice()[*place].pin,
            None => 0,
        }
    }
}

/// The place of the first line of each crossing.
fn first_places(
    alloc: Global,
    lines: &[PinLine],
) -> Result<HashMap<(u32, u32, u32), usize>, NoMemory>
    ensures { IfOk result (FindsFirst lines.now) }
{
    let mut firsts = HashMap::new(alloc);
    for place in (0..lines.len()).rev() {
        let line = lines[place];
        firsts.insert((line.net.0, line.coupler.0, line.ordinal), place)?;
    }
    Ok(firsts)
}
