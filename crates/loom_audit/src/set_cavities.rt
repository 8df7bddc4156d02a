ghost use Rattle.std.specs.Prelude.{◌≡◌, map, IfOk};
ghost use Rattle.loom_topology.specs.Legal.{chosen};

use loom_base::{CavityNo, List, NoMemory};
use std::alloc::Global;

/// The cavities whose bits stand in a mask, the first one's bit lowest.
pub(crate) fn chosen(
    alloc: Global,
    cavities: &[CavityNo],
    mask: u32,
) -> Result<List<CavityNo>, NoMemory>
    ensures { IfOk result (λ some. map (λ c. c.0) some ≡ chosen (map (λ c. c.0) cavities.now) mask) }
{
    let mut some = List::new(alloc);
    let mut rest = mask;
    for cavity in cavities {
        if rest % 2 == 1 {
            some.push(*cavity)?;
        }
        rest /= 2;
    }
    Ok(some)
}
