ghost use Rattle.std.specs.Prelude.{◌≡◌, IfOk};
ghost use Rattle.loom_audit.specs.Spots.{line_at};

use loom_base::NoMemory;

/// A part of a plan.
#[derive(Clone, Copy, Debug, PartialEq, Eq)]
pub enum PlanPart {
    Rows,
    Sets,
    Tables,
    Pins,
    Wires,
    Modules,
}

/// A place in a plan.
#[derive(Clone, Copy, Debug, PartialEq, Eq)]
pub struct Spot {
    pub part: PlanPart,
    /// The position of the line, from 0; of rows the number, from 2.
    pub a: u32,
    /// For two wires the position of the second one, for a table the cell's mask, else 0.
    pub b: u32,
    /// For a table the cell's node, else 0.
    pub c: u32,
}

impl Spot {
    /// A line of a part. A position past 32 bits is want of memory, since no plan in memory has so
    /// many lines.
    pub fn line(part: PlanPart, at: usize) -> Result<Spot, NoMemory>
        ensures { IfOk result (λ spot. spot ≡ line_at part at) }
    {
        let a = u32::try_from(at).map_err(|_| NoMemory)?;
        Ok(Spot {
            part,
            a,
            b: 0,
            c: 0,
        })
    }
}
