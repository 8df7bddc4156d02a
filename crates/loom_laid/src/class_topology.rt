ghost use Rattle.std.specs.Prelude.{◌≡◌, ◌<◌, length, IfOk};
ghost use Rattle.std.specs.Option.{ForSome};
ghost use Rattle.loom_project.specs.Project.{net_topology};
ghost use Rattle.loom_laid.specs.SetStops.{IsOfClass};

use loom_base::{Name, NetNo, NoMemory};
use loom_project::Project;
use loom_topology::Topology;

/// The topology of a class.
#[derive(Drop)]
pub(crate) struct ClassTopology {
    pub(crate) class: Name,
    pub(crate) topology: Topology,
}

impl ClassTopology {
    /// The topology of a net's class, made anew unless the one before is of the same class.
    #[tactic(auto, unfolding(loom_project::specs::Project::net_topology))]
    pub(crate) fn of(
        project: &Project,
        net: NetNo,
        before: Option<ClassTopology>,
    ) -> Result<ClassTopology, NoMemory>
        requires in_range { net.0 < length project.now.nets }
        requires before { ForSome before (IsOfClass project.now) }
        ensures class { IfOk result (IsOfClass project.now) }
        ensures topology { IfOk result (λ made.
            made.topology ≡ net_topology project.now net.0) }
    {
        let class = project.class(net);
        match before {
            Some(made) if made.class == class => Ok(made),
            _ => Ok(ClassTopology {
                class,
                topology: project.topology_of(net)?,
            }),
        }
    }
}
