ghost use Rattle.std.specs.Prelude.{◌≡◌, ◌<◌, ◌^◌, ◌==◌, ◌↔◌, IsTrue, IsNone, Bool, not, length, map, position, count_by};
ghost use Rattle.std.specs.List.{list_all, list_any};
ghost use Rattle.loom_formula.specs.Formula.{members_of, is_chosen, holds_of};
ghost use Rattle.loom_formula.specs.Choice.{choice_at, is_valid};

use crate::{Choice, Formula, Members, Options};
use loom_base::Name;

/// Whether the option of that name is true; a name that isn't an option is false.
fn is_true(name: Name, options: &Options, choice: &Choice) -> bool
    ensures { result ≡ is_chosen options.now (choice_at choice.now.values) name }
{
    match options.position(name) {
        Some(option) => choice.get(option),
        None => false,
    }
}

impl Formula {
    /// Whether the formula holds under a choice of the options.
    #[cycle(holds)]
    pub fn holds(&self, options: &Options, choice: &Choice) -> bool
        ensures { result ≡ holds_of self.now options.now (choice_at choice.now.values) }
    {
        match self {
            Formula::Always => true,
            Formula::Never => false,
            Formula::Is(name) => is_true(*name, options, choice),
            Formula::Not(inner) => !inner.get().holds(options, choice),
            Formula::And(members) => members.all_hold(options, choice),
            Formula::Or(members) => members.some_holds(options, choice),
            Formula::One(members) => members.one_holds(options, choice),
        }
    }
}

impl Members {
    #[cycle(holds)]
    fn all_hold(&self, options: &Options, choice: &Choice) -> bool
        ensures { result ≡ list_all (λ member.
            holds_of member options.now (choice_at choice.now.values)) (members_of self.now) }
    {
        for member in self.as_slice() {
            if !member.holds(options, choice) {
                return false;
            }
        }
        true
    }

    #[cycle(holds)]
    fn some_holds(&self, options: &Options, choice: &Choice) -> bool
        ensures { result ≡ list_any (λ member.
            holds_of member options.now (choice_at choice.now.values)) (members_of self.now) }
    {
        for member in self.as_slice() {
            if member.holds(options, choice) {
                return true;
            }
        }
        false
    }

    #[cycle(holds)]
    fn one_holds(&self, options: &Options, choice: &Choice) -> bool
        ensures { result ≡ (count_by (λ member.
            holds_of member options.now (choice_at choice.now.values)) (members_of self.now) == 1) }
    {
        let mut found = false;
        for member in self.as_slice() {
            if member.holds(options, choice) {
                if found {
                    return false;
                }
                found = true;
            }
        }
        found
    }
}

/// The place of the first rule that is false under a choice.
fn first_false(rules: &[Formula], options: &Options, choice: &Choice) -> Option<usize>
    ensures { result ≡ position (λ rule.
        not (holds_of rule options.now (choice_at choice.now.values))) rules.now }
{
    rules.iter().position(|rule| !rule.holds(options, choice))
}

/// The position of the first rule that is false under a choice of the options; None exactly where
/// all hold, so that the choice is valid.
pub fn broken(rules: &[Formula], options: &Options, choice: &Choice) -> Option<u32>
    requires { length rules.now < 2 ^ 32 }
    ensures first { result ≡ position (λ rule.
        not (holds_of rule options.now (choice_at choice.now.values))) rules.now }
    ensures valid { IsNone result
        ↔ IsTrue (is_valid rules.now options.now (choice_at choice.now.values)) }
{
    let at = first_false(rules, options, choice)?;
    Some(at as u32)
}
