ghost use Rattle.std.specs.Prelude.{◌≡◌, ◌≤◌, ◌<◌, ◌++◌, ◌∷◌, [], length, IfOk, OnOk};
ghost use Rattle.loom_formula.specs.NameIndex.{with_name};
ghost use Rattle.loom_base.specs.First.{require};
ghost use Rattle.loom_project.specs.Draft.{index_of};
ghost use Rattle.loom_project.specs.Sound.{within_limit, not_repeated, known, Gives, Answers};

use crate::{Of, ProjectFault};
use loom_base::{Name, NoMemory, Which};
use loom_formula::NameIndex;

/// Passes exactly where the test holds.
pub fn require(holds: bool, fault: ProjectFault) -> Result<(), ProjectFault>
    ensures { result ≡ require holds fault }
{
    if holds { Ok(()) } else { Err(fault) }
}

/// Passes exactly where there are no more than the limit.
pub fn within_limit(which: Which, limit: u64, count: u64) -> Result<(), ProjectFault>
    requires { limit ≤ 65536 }
    ensures check { result ≡ within_limit which limit count }
    ensures within { OnOk result (count ≤ limit) }
{
    let fault = ProjectFault::Limit {
        which,
        count: limit + 1,
    };
    require(count <= limit, fault)
}

/// The place of a name, which some thing of the kind must have.
pub fn known(of: Of, names: &NameIndex, name: Name) -> Result<u32, ProjectFault>
    ensures answers { Answers result (known of names.now name) }
    ensures place { IfOk result (λ place. place ≡ index_of names.now name) }
    ensures within { IfOk result (λ place. place < length names.now) }
{
    match names.position(&name) {
        Some(place) => Ok(place),
        None => Err(ProjectFault::UnknownName { of, name }),
    }
}

/// Puts a name behind the others, which no earlier thing of the kind may have.
pub fn add_name(names: &mut NameIndex, of: Of, name: Name) -> Result<(), ProjectFault>
    requires { length names.old < 65536 }
    ensures gives { Gives result (not_repeated of names.old name) }
    ensures added { OnOk result (names.new ≡ names.old ++ name ∷ []) }
{
    let is_new = names.add(name)?;
    require(is_new, ProjectFault::RepeatedName { of, name })
}

/// The number of a label, which is numbered behind the others where it is new.
#[tactic(auto, using(crate::proofs::NameLemmas::names_added))]
pub fn label_number(labels: &mut NameIndex, label: Name) -> Result<u32, NoMemory>
    requires { length labels.old < 65536 }
    ensures number { IfOk result (λ number. number ≡ index_of labels.new label) }
    ensures added { OnOk result (labels.new ≡ with_name labels.old label) }
{
    let _ = labels.add(label)?;
    Ok(labels.position(&label).unwrap())
}
