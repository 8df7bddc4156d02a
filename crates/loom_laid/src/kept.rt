//! What is kept from one plan to the next.
ghost use Rattle.std.specs.Prelude.{◌≡◌, ◌<◌, ◌≤◌, ◌↔◌, [], length, map, All, Contains, IfOk, IfSome, IfNone, OnOk, OnErr, IsTrue};
ghost use Rattle.loom_base.specs.Causes.{next_count};
ghost use Rattle.loom_base.specs.declared.positions.NetNo.{NetNo as Net};
ghost use Rattle.loom_laid.specs.Growth.{HasTable, HasLayout, GainsLayout, IsFilled};
ghost use Rattle.loom_laid.specs.Keys.{AreKeysOf};
ghost use Rattle.loom_laid.specs.Kept.{KeptTable, Codes, AreDifferent, AreTrueOf, keys_of, key_of};
ghost use Rattle.loom_laid.specs.Keys.{pair_of};

use crate::key::TableKey;
use indexmap::{IndexMap, IndexSet};
use loom_base::{CavityNo, NetNo, NoMemory};
use loom_project::Project;
use loom_steiner::Filler;
use loom_topology::{Table, Topology};
use loom_types::Layout;
use std::alloc::Global;
use std::marker::Model;

/// A table, and the layouts of some sets by their masks.
#[derive(Drop)]
struct Entry {
    table: Table,
    layouts: IndexMap<u32, Layout>,
}

/// Tables of least costs with layouts of sets, each under a class and the nodes of the terminals. A
/// net whose class and nodes are equal has the same ones. Contracts see the list of what is kept.
#[derive(Drop)]
pub struct Kept {
    entries: IndexMap<TableKey, Entry>,
}

impl Model for Kept {
    ghost use Rattle.std.specs.Prelude.{List};
    ghost use Rattle.std.specs.Coded.{codes};
    ghost use Rattle.loom_types.specs.contracts.layout.Layout as layout;
    ghost use Rattle.loom_laid.specs.Kept.{KeptTable};
    ghost use Rattle.loom_laid.specs.KeptInside.{view_of};

    ghost Value = { List KeptTable };

    ghost coded = { Prim.hlevel (codes, layout.the_row.coded) };

    ghost view = { view_of };
}

/// The keys of nets.
fn keys_of_nets(
    alloc: Global,
    project: &Project,
    nets: &[NetNo],
) -> Result<IndexSet<TableKey>, NoMemory>
    requires { All (λ net. net.0 < length project.now.nets) nets.now }
    ensures { IfOk result (λ found. AreKeysOf project.now nets.now found.keys) }
{
    let mut keys = IndexSet::new(alloc);
    for net in nets {
        keys.insert(TableKey::of(alloc, project, *net)?)?;
    }
    Ok(keys)
}

impl Kept {
    /// Nothing kept.
    pub fn new(alloc: Global) -> Kept
        ensures { result ≡ [] }
    {
        Kept {
            entries: IndexMap::new(alloc),
        }
    }

    /// Drops all that is kept.
    pub fn forget(&mut self)
        ensures { self.new ≡ [] }
    {
        self.entries.clear();
    }

    /// Under each key one table is kept. This does nothing; a caller whose proof needs it calls it.
    pub fn keys_are_different(&self)
        ensures { AreDifferent self.now }
    {
        let _count = self.entries.len();
    }

    /// Whether a table is kept under the key.
    pub(crate) fn has(&self, key: &TableKey) -> bool
        ensures { IsTrue result ↔ Contains (keys_of self.now) (pair_of key.now) }
    {
        self.entries.contains_key(key)
    }

    /// A copy of the table that is kept under the key.
    pub(crate) fn copy_of(&self, key: &TableKey) -> Result<Table, NoMemory>
        requires { Contains (keys_of self.now) (pair_of key.now) }
        ensures { IfOk result (HasTable self.now (pair_of key.now)) }
    {
        self.entries.get(key).unwrap().table.copy()
    }

    /// The layout of a set that is kept under the key, if one is.
    pub(crate) fn layout(&self, key: &TableKey, mask: u32) -> Option<&Layout>
        ensures { IfSome result (λ layout. HasLayout self.now (pair_of key.now) mask layout.now) }
    {
        self.entries.get(key)?.layouts.get(&mask)
    }

    /// Keeps the layout of a set under the key.
    pub(crate) fn keep_layout(
        &mut self,
        key: &TableKey,
        mask: u32,
        layout: Layout,
    ) -> Result<(), NoMemory>
        requires { Contains (keys_of self.old) (pair_of key.now) }
        ensures { GainsLayout self.old self.new (pair_of key.now) mask layout }
    {
        let at = self.entries.get_index_of(key).unwrap();
        self.entries[at].layouts.insert(mask, layout)?;
        Ok(())
    }

    /// Fills the table of terminals over a topology and keeps it under a key; the place is taken
    /// before the filler is asked.
    pub(crate) fn fill<F: Filler>(
        &mut self,
        alloc: Global,
        key: TableKey,
        topology: &Topology,
        terminals: &[CavityNo],
        filler: &mut F,
    ) -> Result<(), NoMemory>
        requires absent { Contains (keys_of self.old) (pair_of key) → ⊥ }
        requires at_least { 2 ≤ length terminals.now }
        requires at_most { length terminals.now ≤ 12 }
        requires in_range { All (λ cavity. cavity.0 < length topology.now.cavities) terminals.now }
        ensures filled { OnOk result (IsFilled topology.now (map (λ cavity. cavity.0) terminals.now)
            (pair_of key) self.old self.new) }
        ensures given { OnOk result (F.count filler.new ≡ next_count (F.count filler.old)) }
        ensures unchanged { OnErr result (self.new ≡ self.old) }
        ensures not_given { OnErr result (F.count filler.new ≡ F.count filler.old) }
    {
        self.entries.reserve(1)?;
        let table = filler.table(alloc, topology, terminals)?;
        let _masks = table.masks();
        let layouts = IndexMap::new(alloc);
        self.entries.insert(key, Entry { table, layouts })?;
        Ok(())
    }

    /// Drops all but what is kept under the keys of these nets; after want of memory nothing is
    /// dropped.
    pub fn keep_live(
        &mut self,
        alloc: Global,
        project: &Project,
        nets: &[NetNo],
    ) -> Result<(), NoMemory>
        requires { All (λ net. net.0 < length project.now.nets) nets.now }
        ensures keys { OnOk result ((key : Codes × Codes) → Contains (keys_of self.new) key
            ↔ (Contains (keys_of self.old) key × ((net : Net) × Contains nets.now net
            × (key ≡ key_of project.now net.0)))) }
        ensures same { (one : KeptTable) → Contains self.new one → Contains self.old one }
        ensures kept { AreTrueOf project.now self.old → AreTrueOf project.now self.new }
        ensures refused { OnErr result (self.new ≡ self.old) }
    {
        let live = keys_of_nets(alloc, project, nets)?;
        self.entries.retain(|key, _entry| live.contains(key));
        Ok(())
    }
}
