ghost use Rattle.std.specs.Prelude.{◌≡◌, ◌<◌, ◌++◌, ◌∷◌, [], length, slice_get, OnOk, OnErr, OnSome, IfOk};
ghost use Rattle.std.specs.Option.{option_copied};
ghost use Rattle.loom_formula.specs.Formula.{members_of};

use loom_base::{List, Name, NoMemory};
use sqlite_items::Boxed;
use std::alloc::Global;

/// What has to hold of the options: a rule, or when a net needs a cavity.
#[cycle(formula)]
#[derive(Debug, Drop)]
pub enum Formula {
    /// It holds under every choice.
    Always,
    /// It holds under no choice.
    Never,
    /// The option of that name is true. A name that isn't an option is false.
    Is(Name),
    /// The formula doesn't hold.
    Not(Boxed<Formula>),
    /// All members hold; without members it holds.
    And(Members),
    /// Some member holds; without members it doesn't hold.
    Or(Members),
    /// Exactly one member holds; without members it doesn't hold.
    One(Members),
}

/// The members of a formula, in order.
#[cycle(formula)]
#[derive(Debug, Drop)]
pub struct Members {
    list: List<Formula>,
}

impl Members {
    /// No members.
    pub fn new(alloc: Global) -> Members
        ensures { members_of result ≡ [] }
    {
        Members {
            list: List::new(alloc),
        }
    }

    /// Appends a member; after want of memory there are those as before.
    pub fn push(&mut self, member: Formula) -> Result<(), NoMemory>
        ensures ok { OnOk result (members_of self.new ≡ members_of self.old ++ member ∷ []) }
        ensures refused { OnErr result (self.new ≡ self.old) }
    {
        self.list.push(member)?;
        Ok(())
    }

    /// The members in order.
    pub fn as_slice(&self) -> &[Formula]
        ensures { result.now ≡ members_of self.now }
    {
        self.list.as_slice()
    }

    /// How many members there are.
    pub fn count(&self) -> u64
        ensures { result ≡ length (members_of self.now) }
    {
        self.list.len() as u64
    }

    /// The k-th member, counted from 0; None exactly past the last.
    pub fn get(&self, k: u64) -> Option<&Formula>
        ensures value { option_copied result ≡ slice_get (members_of self.now) k }
        ensures within { OnSome result (k < length (members_of self.now)) }
    {
        self.list.get(k as usize)
    }
}

impl Formula {
    /// A formula equal to this one.
    #[cycle(copy)]
    pub fn copy(&self, alloc: Global) -> Result<Formula, NoMemory>
        ensures { IfOk result (λ copy. copy ≡ self.now) }
    {
        Ok(match self {
            Formula::Always => Formula::Always,
            Formula::Never => Formula::Never,
            Formula::Is(name) => Formula::Is(*name),
            Formula::Not(inner) => {
                let inner = inner.get().copy(alloc)?;
                Formula::Not(Boxed::new(alloc, inner)?)
            }
            Formula::And(members) => Formula::And(members.copy(alloc)?),
            Formula::Or(members) => Formula::Or(members.copy(alloc)?),
            Formula::One(members) => Formula::One(members.copy(alloc)?),
        })
    }
}

impl Members {
    #[cycle(copy)]
    fn copy(&self, alloc: Global) -> Result<Members, NoMemory>
        ensures { IfOk result (λ copy. copy ≡ self.now) }
    {
        let mut list = List::new(alloc);
        for member in self.list.as_slice() {
            list.push(member.copy(alloc)?)?;
        }
        Ok(Members { list })
    }
}
