ghost use Rattle.loom_reader.specs.Project.{project_form};

use crate::formula::FormulaForm;
use crate::parts::{CavityForm, NetForm, NodeForm, SegmentForm};
use loom_json::ShapeStop;
use loom_json::forms::{self, Form, ListForm, NameForm};
use loom_project::Draft;
use serde_json::Value;
use std::alloc::Global;

/// A project, in the forms of a version.
pub struct ProjectForm<const VERSION: u8>;

impl<const VERSION: u8> Form for ProjectForm<VERSION> {
    type Out = Draft;

    ghost reads = { project_form VERSION };

    #[tactic(auto, unfolding(crate::specs::Project::project_form))]
    fn read(alloc: Global, value: &Value) -> Result<Draft, ShapeStop> {
        forms::keyed(
            alloc,
            value,
            &["options", "rules", "nodes", "segments", "cavities", "nets"],
        )?;
        Ok(Draft {
            options: forms::at_key::<ListForm<NameForm>>(alloc, value, "options")?,
            rules: forms::at_key::<ListForm<FormulaForm>>(alloc, value, "rules")?,
            nodes: forms::at_key::<ListForm<NodeForm>>(alloc, value, "nodes")?,
            segments: forms::at_key::<ListForm<SegmentForm<VERSION>>>(alloc, value, "segments")?,
            cavities: forms::at_key::<ListForm<CavityForm>>(alloc, value, "cavities")?,
            nets: forms::at_key::<ListForm<NetForm<VERSION>>>(alloc, value, "nets")?,
        })
    }
}
