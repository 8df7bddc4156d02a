//! Drafts of projects, and the check that makes a sound draft a project.
#![tactic(auto)]

mod barred;
mod cavities;
mod classes;
mod copy;
mod draft;
mod fault;
mod formulas;
mod nets;
mod nodes;
mod numbers;
mod options;
mod project;
mod require;
mod segments;

pub use draft::{CavityDraft, Draft, NetDraft, NodeDraft, SegmentDraft, TerminalDraft};
pub use fault::{Of, ProjectFault};
pub use numbers::NumberChange;
pub use project::Project;
