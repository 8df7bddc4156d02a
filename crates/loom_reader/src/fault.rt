use loom_base::Which;
use loom_json::{JsonStop, Path, ShapeStop};
use loom_project::ProjectFault;

/// Why bytes weren't read as a document: its first failure, in this order.
#[derive(Debug, Drop)]
pub enum ReadFault {
    /// The bytes are no JSON text, or one nested more than 127 deep.
    NotJson,
    /// The first place, in reading order, that isn't of its form.
    WrongShape { path: Path },
    /// The first failure of the project's draft, which is never `ProjectFault::NoMemory`.
    Project(ProjectFault),
    /// There are more entries than the limit on edits; `count` is the limit and one.
    Limit { which: Which, count: u64 },
    /// Memory ran out, wherever it was wanted.
    NoMemory,
}

impl From<JsonStop> for ReadFault {
    ghost use Rattle.std.specs.Prelude.{◌≡◌};
    ghost use Rattle.loom_reader.specs.Faults.{text_fault};

    ghost from_gives = { λ stop fault. fault ≡ text_fault stop };

    fn from(stop: JsonStop) -> ReadFault {
        match stop {
            JsonStop::NotJson => ReadFault::NotJson,
            JsonStop::NoMemory => ReadFault::NoMemory,
        }
    }
}

impl From<ShapeStop> for ReadFault {
    ghost use Rattle.std.specs.Prelude.{◌≡◌};
    ghost use Rattle.loom_reader.specs.Faults.{shape_fault};

    ghost from_gives = { λ stop fault. fault ≡ shape_fault stop };

    fn from(stop: ShapeStop) -> ReadFault {
        match stop {
            ShapeStop::WrongShape { path } => ReadFault::WrongShape { path },
            ShapeStop::NoMemory => ReadFault::NoMemory,
        }
    }
}

impl From<ProjectFault> for ReadFault {
    ghost use Rattle.std.specs.Prelude.{◌≡◌};
    ghost use Rattle.loom_reader.specs.Faults.{draft_fault};

    ghost from_gives = { λ failure fault. fault ≡ draft_fault failure };

    fn from(failure: ProjectFault) -> ReadFault {
        match failure {
            ProjectFault::NoMemory => ReadFault::NoMemory,
            failure => ReadFault::Project(failure),
        }
    }
}
