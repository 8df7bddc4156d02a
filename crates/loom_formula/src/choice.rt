ghost use Rattle.std.specs.Prelude.{◌≡◌};
ghost use Rattle.loom_formula.specs.declared.choice.ChoiceFault.TheVariants.{NoMemory as OutOfMemory};
ghost use Rattle.loom_formula.specs.Choice.{choice_at, choice_of, GivesChoice};

use crate::Options;
use loom_base::{List, Name, OptionNo};
use std::alloc::{AllocError, Global};

/// A choice of the options: the truth of each by its position. What is past the list's end is
/// false.
#[derive(Debug, Drop)]
pub struct Choice {
    pub values: List<bool>,
}

/// Why names make no choice.
#[derive(Clone, Copy, Debug, PartialEq, Eq)]
pub enum ChoiceFault {
    /// No option has this name.
    Unknown(Name),
    /// The name came before.
    Repeated(Name),
    /// Memory ran out.
    NoMemory,
}

impl From<AllocError> for ChoiceFault {
    ghost from_gives = { λ _ fault. fault ≡ OutOfMemory };

    fn from(_error: AllocError) -> ChoiceFault {
        ChoiceFault::NoMemory
    }
}

impl Choice {
    /// Whether an option is true.
    pub fn get(&self, option: OptionNo) -> bool
        ensures { result ≡ choice_at self.now.values option.0 }
    {
        match self.values.get(option.0 as usize) {
            Some(&value) => value,
            None => false,
        }
    }

    /// The choice in which exactly the named options are true, with a value for each option. It is
    /// `Unknown` at the first name that isn't an option and `Repeated` at the first that came
    /// before, whichever stands first.
    pub fn of(alloc: Global, options: &Options, names: &[Name]) -> Result<Choice, ChoiceFault>
        ensures { GivesChoice result (choice_of options.now names.now) }
    {
        let mut values = List::from_vec(vec![in alloc; false; options.count() as usize]?);
        for name in names {
            let Some(option) = options.position(*name) else {
                return Err(ChoiceFault::Unknown(*name));
            };
            let at = option.0 as usize;
            if values.as_slice()[at] {
                return Err(ChoiceFault::Repeated(*name));
            }
            values.set(at, true);
        }
        Ok(Choice { values })
    }
}
