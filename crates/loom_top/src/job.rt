ghost use Rattle.std.specs.Prelude.{◌≡◌};
ghost use Rattle.loom_top.specs.Jobs.{want_of};

use loom_reader::Want;

/// What the program can be asked to do with a document.
#[derive(Clone, Copy, Debug, PartialEq, Eq)]
pub enum DocumentJob {
    /// Plans the document's project.
    Plan,
    /// Takes the wires of one choice out of the document's plan.
    Extract,
    /// Judges the document's plan.
    Check,
}

impl DocumentJob {
    /// What the job needs of a document.
    pub fn want(self) -> Want
        ensures { result ≡ want_of self }
    {
        match self {
            DocumentJob::Plan => Want::Plan,
            DocumentJob::Extract => Want::Extract,
            DocumentJob::Check => Want::Check,
        }
    }
}
