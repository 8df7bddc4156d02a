ghost use Rattle.std.specs.Prelude.{◌≡◌, false};
ghost use Rattle.loom_reader.specs.Document.{reads_limits, needs_choice, needs_plan, needs_between};

/// What a document is read for. A part that isn't needed for it isn't looked at.
#[derive(Clone, Copy, Debug, Drop, PartialEq, Eq)]
pub enum Want {
    /// The wires of its project are planned, and design rules judge them.
    Plan,
    /// The wires of its plan that are live under a choice are picked.
    Extract,
    /// Its plan is checked.
    Check,
    /// It is explained why two cavities are joined or apart under a choice.
    Explain,
}

impl Want {
    /// Whether the limits of design rules are read.
    pub(crate) fn reads_limits(self) -> bool
        ensures { result ≡ reads_limits self }
    {
        matches!(self, Want::Plan)
    }

    /// Whether the true options are needed.
    pub(crate) fn needs_choice(self) -> bool
        ensures { result ≡ needs_choice self }
    {
        matches!(self, Want::Extract | Want::Explain)
    }

    /// Whether a plan is needed.
    pub(crate) fn needs_plan(self) -> bool
        ensures value { result ≡ needs_plan self }
        ensures other { result ≡ false → self ≡ Want.Plan }
    {
        !matches!(self, Want::Plan)
    }

    /// Whether two cavities are needed.
    pub(crate) fn needs_between(self) -> bool
        ensures { result ≡ needs_between self }
    {
        matches!(self, Want::Explain)
    }
}
