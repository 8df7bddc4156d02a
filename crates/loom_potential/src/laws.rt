//! A law on tables and the first of their inequalities that fails. The function does nothing: its
//! contract is the law, and a caller whose proof needs it calls it.

ghost use Rattle.loom_potential.specs.Laws.{UnbrokenIsLegal};

/// A table none of whose inequalities fails is legal, and none of a legal table's fails.
#[tactic(auto, using(crate::proofs::Legality::unbroken_is_legal))]
pub fn unbroken_is_legal()
    ensures { UnbrokenIsLegal }
{}
