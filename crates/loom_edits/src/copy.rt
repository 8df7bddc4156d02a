ghost use Rattle.std.specs.Prelude.{◌≡◌, IfOk};
ghost use Rattle.loom_edits.specs.declared.part.Part.TheVariants as parts;
ghost use Rattle.loom_edits.specs.Parts.{part_of};

use crate::Edit;
use crate::part::Part;
use loom_base::{List, NoMemory};
use loom_project::TerminalDraft;
use std::alloc::Global;

impl Edit {
    /// An edit equal to this one.
    pub fn copy(&self, alloc: Global) -> Result<Edit, NoMemory>
        ensures { IfOk result (λ copy. copy ≡ self.now) }
    {
        match self.part() {
            Part::Options => copied_options(alloc, self),
            Part::Places => Ok(copied_places(self)),
            Part::NewSegments => copied_new_segments(alloc, self),
            Part::Segments => copied_segments(alloc, self),
            Part::Nets => copied_nets(alloc, self),
            Part::Terminals => copied_in_net(alloc, self),
        }
    }
}

/// Terminals equal to these.
#[tactic(auto, using(loom_base::proofs::EachLemmas::each_steps))]
pub fn copied_terminals(
    alloc: Global,
    terminals: &[TerminalDraft],
) -> Result<List<TerminalDraft>, NoMemory>
    ensures { IfOk result (λ copies. copies ≡ terminals.now) }
{
    let mut copies = List::new(alloc);
    for terminal in terminals {
        copies.push(terminal.copy(alloc)?)?;
    }
    Ok(copies)
}

fn copied_options(alloc: Global, edit: &Edit) -> Result<Edit, NoMemory>
    requires { part_of edit.now ≡ parts.Options }
    ensures { IfOk result (λ copy. copy ≡ edit.now) }
{
    Ok(match edit {
        Edit::AddOption { name } => Edit::AddOption { name: *name },
        Edit::RemoveOption { name } => Edit::RemoveOption { name: *name },
        Edit::AddRule { when } => {
            let when = when.copy(alloc)?;
            Edit::AddRule { when }
        }
        Edit::RemoveRule { number } => Edit::RemoveRule { number: *number },
        _ => unreachable!(),
    })
}

fn copied_places(edit: &Edit) -> Edit
    requires { part_of edit.now ≡ parts.Places }
    ensures { result ≡ edit.now }
{
    match *edit {
        Edit::AddNode {
            name,
            harness,
            branch,
        } => Edit::AddNode {
            name,
            harness,
            branch,
        },
        Edit::RemoveNode { name } => Edit::RemoveNode { name },
        Edit::SetBranch { name, branch } => Edit::SetBranch { name, branch },
        Edit::AddCavity { name, device, node } => Edit::AddCavity { name, device, node },
        Edit::RemoveCavity { name } => Edit::RemoveCavity { name },
        _ => unreachable!(),
    }
}

fn copied_new_segments(alloc: Global, edit: &Edit) -> Result<Edit, NoMemory>
    requires { part_of edit.now ≡ parts.NewSegments }
    ensures { IfOk result (λ copy. copy ≡ edit.now) }
{
    Ok(match edit {
        Edit::AddRun {
            name,
            from,
            to,
            length,
            bars,
        } => Edit::AddRun {
            name: *name,
            from: *from,
            to: *to,
            length: *length,
            bars: bars.copy(alloc)?,
        },
        Edit::AddCoupler {
            name,
            from,
            to,
            price,
            pins,
            bars,
            reserved,
        } => Edit::AddCoupler {
            name: *name,
            from: *from,
            to: *to,
            price: *price,
            pins: *pins,
            bars: bars.copy(alloc)?,
            reserved: reserved.copy(alloc)?,
        },
        _ => unreachable!(),
    })
}

fn copied_segments(alloc: Global, edit: &Edit) -> Result<Edit, NoMemory>
    requires { part_of edit.now ≡ parts.Segments }
    ensures { IfOk result (λ copy. copy ≡ edit.now) }
{
    Ok(match edit {
        Edit::RemoveSegment { name } => Edit::RemoveSegment { name: *name },
        Edit::SetLength { name, length } => Edit::SetLength {
            name: *name,
            length: *length,
        },
        Edit::SetPrice { name, price } => Edit::SetPrice {
            name: *name,
            price: *price,
        },
        Edit::SetPins { name, pins } => Edit::SetPins {
            name: *name,
            pins: *pins,
        },
        Edit::SetBars { name, bars } => Edit::SetBars {
            name: *name,
            bars: bars.copy(alloc)?,
        },
        Edit::SetReserved { name, reserved } => Edit::SetReserved {
            name: *name,
            reserved: reserved.copy(alloc)?,
        },
        _ => unreachable!(),
    })
}

fn copied_nets(alloc: Global, edit: &Edit) -> Result<Edit, NoMemory>
    requires { part_of edit.now ≡ parts.Nets }
    ensures { IfOk result (λ copy. copy ≡ edit.now) }
{
    Ok(match edit {
        Edit::AddNet {
            name,
            class,
            terminals,
        } => Edit::AddNet {
            name: *name,
            class: *class,
            terminals: copied_terminals(alloc, terminals.as_slice())?,
        },
        Edit::RemoveNet { name } => Edit::RemoveNet { name: *name },
        Edit::SetClass { name, class } => Edit::SetClass {
            name: *name,
            class: *class,
        },
        _ => unreachable!(),
    })
}

fn copied_in_net(alloc: Global, edit: &Edit) -> Result<Edit, NoMemory>
    requires { part_of edit.now ≡ parts.Terminals }
    ensures { IfOk result (λ copy. copy ≡ edit.now) }
{
    Ok(match edit {
        Edit::AddTerminal { net, cavity, when } => Edit::AddTerminal {
            net: *net,
            cavity: *cavity,
            when: when.copy(alloc)?,
        },
        Edit::RemoveTerminal { net, cavity } => Edit::RemoveTerminal {
            net: *net,
            cavity: *cavity,
        },
        Edit::SetWhen { net, cavity, when } => Edit::SetWhen {
            net: *net,
            cavity: *cavity,
            when: when.copy(alloc)?,
        },
        _ => unreachable!(),
    })
}
