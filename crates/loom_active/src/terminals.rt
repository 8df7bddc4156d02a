ghost use Rattle.std.specs.Prelude.{◌≡◌, ◌<◌, ℕ, IfOk, length};
ghost use Rattle.std.specs.List.{flat_map};
ghost use Rattle.loom_project.specs.Project.{net_at};
ghost use Rattle.loom_rows.specs.Condition.{value};
ghost use Rattle.loom_rows.specs.Table.{Has, IsSound};
ghost use Rattle.loom_rows.specs.Leftovers.{Works};
ghost use Rattle.loom_active.specs.LiveWork.{terminal_worked, terminals_worked};
ghost use Rattle.loom_active.specs.Terminals.{AreTerminalsOf, AreTerminals};

use loom_base::{CavityNo, List, NetNo};
use loom_project::Project;
use loom_rows::{Cond, Rows, RowsStop};
use std::alloc::Global;

/// A terminal of a net, with when its formula holds, and when it does under a valid choice.
#[derive(Clone, Copy)]
pub(crate) struct Terminal<'a> {
    pub(crate) cavity: CavityNo,
    pub(crate) when: Cond<'a>,
    pub(crate) active: Cond<'a>,
}

/// The terminals of a net. For each in order its formula is worked out, then that it holds under a
/// valid choice.
fn terminals_of_net<'a>(
    alloc: Global,
    project: &Project,
    net: NetNo,
    valid: Cond<'a>,
    rows: &mut Rows<'a>,
) -> Result<List<Terminal<'a>>, RowsStop>
    requires net { net.0 < length project.now.nets }
    requires options { rows.old.options ≡ length project.now.options }
    requires sound { IsSound rows.old }
    requires has { Has rows.old valid }
    ensures terminals { IfOk result
        (AreTerminalsOf project.now rows.new (value valid.entry) net.0) }
    ensures works { Works
        (flat_map (terminal_worked project.now.options (value valid.entry))
        (net_at project.now net.0).terminals)
        rows.old rows.new result }
{
    let options = project.options();
    let cavities = project.cavities(net);
    let mut terminals = List::new(alloc);
    for (at, cavity) in cavities.iter().enumerate() {
        let when = rows.of_formula(options, project.when(net, at as u32))?;
        let active = rows.and(valid, when)?;
        terminals.push(Terminal {
            cavity: *cavity,
            when,
            active,
        })?;
    }
    Ok(terminals)
}

/// The terminals of all nets, net by net.
pub(crate) fn terminals_of<'a>(
    alloc: Global,
    project: &Project,
    valid: Cond<'a>,
    rows: &mut Rows<'a>,
) -> Result<List<List<Terminal<'a>>>, RowsStop>
    requires options { rows.old.options ≡ length project.now.options }
    requires sound { IsSound rows.old }
    requires has { Has rows.old valid }
    ensures terminals { IfOk result (AreTerminals project.now rows.new (value valid.entry)) }
    ensures counted { IfOk result (λ nets. length nets ≡ length project.now.nets) }
    ensures works { Works
        (terminals_worked project.now.options (value valid.entry) project.now.nets)
        rows.old rows.new result }
{
    let mut nets = List::new(alloc);
    for net in 0..project.net_count() {
        let terminals = terminals_of_net(alloc, project, NetNo(net), valid, rows)?;
        nets.push(terminals)?;
    }
    Ok(nets)
}
