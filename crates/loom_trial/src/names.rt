ghost use Rattle.std.specs.Prelude.{◌≡◌, ◌≤◌, IfOk, IsTrue};
ghost use Rattle.loom_base.specs.Names.{is_name};
ghost use Rattle.loom_trial.specs.Trial.{are_letters, numbered};

use loom_base::{Name, NoMemory};
use std::alloc::Global;

/// The name of some letters and a number.
#[tactic(auto, using(crate::proofs::NameLemmas::numbered_is_name), unfolding(crate::specs::Trial::numbered))]
pub fn numbered_name(alloc: Global, letters: &str, number: u32) -> Result<Name, NoMemory>
    requires letters { IsTrue (are_letters letters.now) }
    requires few { number ≤ 200 }
    ensures { IfOk result (λ name. name ≡ numbered letters.now number) }
{
    let text = format!(in alloc; "{letters}{number}")?;
    match Name::parse(text.as_bytes()) {
        Some(name) => Ok(name),
        None => unreachable!(),
    }
}

/// The name that a text spells.
pub fn label(text: &str) -> Name
    requires { IsTrue (is_name text.now) }
    ensures { result ≡ text.now }
{
    match Name::parse(text.as_bytes()) {
        Some(name) => name,
        None => unreachable!(),
    }
}
