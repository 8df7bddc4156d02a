use loom_audit::Spot;

/// What is said of a plan.
#[derive(Clone, Copy, Debug, PartialEq, Eq)]
pub enum Verdict {
    /// All nine rules hold of it.
    Yes,
    /// The first rule that fails, from 1 to 9, and the first place where it does.
    No { rule: u8, place: Spot },
}
