ghost use Rattle.std.specs.Prelude.{◌≡◌, ◌<◌, ◌==◌, Some, [], bytes_eq, length, not, position, is_some, slice_get, IfOk, IfSome, OnOk, OnErr};
ghost use Rattle.std.specs.List.{IsDistinct};
ghost use Rattle.loom_formula.specs.NameIndex.{has_name, with_name};

use indexmap::IndexSet;
use loom_base::{Name, NoMemory};
use std::alloc::Global;
use std::marker::Model;

/// Names in the order in which they were added, each once, found again by a hashed table. Contracts
/// see the list of the names.
#[derive(Drop)]
pub struct NameIndex {
    names: IndexSet<Name>,
}

impl Model for NameIndex {
    ghost use Rattle.std.specs.Prelude.{ℕ, List, ◌<◌, length};
    ghost use Rattle.std.specs.Coded.{coded_list, coded_ℕ};

    ghost Value = { List (List ℕ) };

    ghost coded = { coded_list (coded_list coded_ℕ) };

    ghost view = { λ index. index.names.keys };

    ghost invariant = { λ index. length index.names.keys < 4294967296 };
}

impl NameIndex {
    /// No names.
    pub fn new(alloc: Global) -> NameIndex
        ensures { result ≡ [] }
    {
        NameIndex {
            names: IndexSet::new(alloc),
        }
    }

    /// Puts a name behind the others and answers true, or answers false where the name is there and
    /// changes nothing. After want of memory the names are as before.
    pub fn add(&mut self, name: Name) -> Result<bool, NoMemory>
        requires { length self.old < u32.MAX }
        ensures answer { IfOk result (λ added. added ≡ not (has_name self.old name)) }
        ensures ok { OnOk result (self.new ≡ with_name self.old name) }
        ensures refused { OnErr result (self.new ≡ self.old) }
    {
        let (_, is_new) = self.names.insert_full(name)?;
        Ok(is_new)
    }

    /// The place of a name, counted from 0; None exactly where it isn't there.
    pub fn position(&self, name: &Name) -> Option<u32>
        ensures value { result ≡ position (bytes_eq name.now) self.now }
        ensures found { is_some result ≡ has_name self.now name.now }
        ensures stored { IfSome result (λ at. slice_get self.now at ≡ Some name.now) }
    {
        let at = self.names.get_index_of(name)?;
        Some(at as u32)
    }

    /// The name at a place.
    pub fn name(&self, at: u32) -> Name
        requires { at < length self.now }
        ensures { slice_get self.now at ≡ Some result }
    {
        self.names.as_slice()[at as usize]
    }

    /// How many names there are.
    pub fn len(&self) -> u32
        ensures len { result ≡ length self.now }
        ensures each_once { IsDistinct bytes_eq self.now }
    {
        self.names.len() as u32
    }

    /// Whether there are no names.
    pub fn is_empty(&self) -> bool
        ensures { result ≡ (length self.now == 0) }
    {
        self.names.is_empty()
    }
}
