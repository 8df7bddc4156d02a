//! A law on what is kept. The function does nothing: its contract is the law, which holds of all
//! drafts, and a caller whose proof needs the law calls it.
ghost use Rattle.loom_laid.specs.Kept.{KeptStaysTrue};

/// What is kept is told by nodes alone. So it stays true from one draft to another as long as the
/// ground is the same: branch costs of nodes, ends and lengths or prices of segments, and which
/// classes they bar. Options, rules, cavities, nets, harnesses and pins may differ.
pub fn kept_stays_true()
    ensures { KeptStaysTrue }
{}
