ghost use Rattle.std.specs.Prelude.{◌≡◌, ◌<◌, ◌≤◌, Some, [], bytes_eq, length, not, position, option_map, is_some, slice_get, IfOk, IfSome, OnOk, OnErr};
ghost use Rattle.std.specs.List.{IsDistinct};
ghost use Rattle.loom_formula.specs.NameIndex.{has_name, with_name};

use crate::NameIndex;
use loom_base::{Name, NoMemory, OptionNo};
use std::alloc::Global;
use std::marker::Model;

/// The options of a project: their names in order, each once. Contracts see the list of the names.
#[derive(Drop)]
pub struct Options {
    names: NameIndex,
}

impl Model for Options {
    ghost use Rattle.std.specs.Prelude.{ℕ, List, ◌≤◌, length};
    ghost use Rattle.std.specs.Coded.{coded_list, coded_ℕ};

    ghost Value = { List (List ℕ) };

    ghost coded = { coded_list (coded_list coded_ℕ) };

    ghost view = { λ options. options.names };

    ghost invariant = { λ options. length options.names ≤ 512 };
}

impl Options {
    /// No options.
    pub fn new(alloc: Global) -> Options
        ensures { result ≡ [] }
    {
        Options {
            names: NameIndex::new(alloc),
        }
    }

    /// Puts an option behind the others and answers true, or answers false where its name is there
    /// and changes nothing. After want of memory the options are as before.
    pub fn add(&mut self, name: Name) -> Result<bool, NoMemory>
        requires { length self.old < 512 }
        ensures answer { IfOk result (λ added. added ≡ not (has_name self.old name)) }
        ensures ok { OnOk result (self.new ≡ with_name self.old name) }
        ensures refused { OnErr result (self.new ≡ self.old) }
    {
        self.names.add(name)
    }

    /// The option of that name; None exactly where no option has it.
    pub fn position(&self, name: Name) -> Option<OptionNo>
        ensures value { option_map (λ option. option.0) result ≡ position (bytes_eq name) self.now }
        ensures found { is_some result ≡ has_name self.now name }
        ensures stored { IfSome result (λ option. slice_get self.now option.0 ≡ Some name) }
    {
        let at = self.names.position(&name)?;
        Some(OptionNo(at))
    }

    /// The name of an option.
    pub fn name(&self, option: OptionNo) -> Name
        requires { option.0 < length self.now }
        ensures { slice_get self.now option.0 ≡ Some result }
    {
        self.names.name(option.0)
    }

    /// How many options there are, at most 512.
    pub fn count(&self) -> u32
        ensures count { result ≡ length self.now }
        ensures few { result ≤ 512 }
        ensures each_once { IsDistinct bytes_eq self.now }
    {
        self.names.len()
    }
}
