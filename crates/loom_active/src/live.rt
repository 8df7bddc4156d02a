ghost use Rattle.std.specs.Prelude.{◌≡◌, ◌≤◌, ◌++◌, [], length, IfOk, IfErr, OnOk};
ghost use Rattle.std.specs.List.{filter_map};
ghost use Rattle.loom_rows.specs.declared.cond.Cond.{Cond as Condition};
ghost use Rattle.loom_rows.specs.Condition.{value};
ghost use Rattle.loom_rows.specs.Table.{Has, IsSound};
ghost use Rattle.loom_rows.specs.Leftovers.{AreSame, StandsFor};
ghost use Rattle.loom_active.specs.Needs.{is_valid_for};
ghost use Rattle.loom_active.specs.Valid.{SomeIsValid, NeedTooManyRows};
ghost use Rattle.loom_active.specs.Clash.{HasNoClash};
ghost use Rattle.loom_active.specs.LiveWork.{needs_worked, live_worked};
ghost use Rattle.loom_active.specs.LiveStops.{IsLiveStop};
ghost use Rattle.loom_active.specs.Terminals.{AreTerminals, IsSameJob};
ghost use Rattle.loom_active.specs.FoundSets.{AreLiveSets, set_of};

use crate::ActiveStop;
use crate::clash::first_clash;
use crate::patterns::{Pattern, patterns_of};
use crate::rules::valid;
use crate::terminals::{Terminal, terminals_of};
use loom_base::{List, MAX_SETS, NetNo, NoMemory, Which};
use loom_project::Project;
use loom_rows::{Cond, Rows};
use std::alloc::Global;

/// A set of cavities that a net needs under some valid choice.
#[derive(Clone, Copy)]
pub struct LiveSet<'a> {
    pub net: NetNo,
    /// Bit i stands for the net's terminal i.
    pub mask: u32,
    /// That the choice is valid and the net needs exactly this set.
    pub cond: Cond<'a>,
}

/// The live sets of all nets.
#[derive(Drop)]
pub struct Sets<'a> {
    /// That the choice is valid.
    pub valid: Cond<'a>,
    /// In order of net, then mask.
    pub list: List<LiveSet<'a>>,
}

/// Appends the patterns with at least two bits, as sets of a net.
fn add_sets<'a>(
    sets: &mut List<LiveSet<'a>>,
    net: NetNo,
    patterns: &[Pattern<'a>],
) -> Result<(), NoMemory>
    ensures { OnOk result (sets.new ≡ sets.old ++ filter_map (set_of net) patterns.now) }
{
    for pattern in patterns {
        if pattern.mask.count_ones() >= 2 {
            sets.push(LiveSet {
                net,
                mask: pattern.mask,
                cond: pattern.cond,
            })?;
        }
    }
    Ok(())
}

/// The live sets of the nets with these terminals, net by net; after each net their number is
/// tested.
fn sets_of<'a>(
    alloc: Global,
    project: &Project,
    rows: &mut Rows<'a>,
    valid: Cond<'a>,
    nets: &[List<Terminal<'a>>],
) -> Result<List<LiveSet<'a>>, ActiveStop>
    requires limit { rows.old.limit ≡ 262144 }
    requires sound { IsSound rows.old }
    requires has { Has rows.old valid }
    requires valid { AreSame (value valid) (is_valid_for project.now) }
    requires some { SomeIsValid project.now }
    requires clear { HasNoClash project.now }
    requires stands { StandsFor rows.old (needs_worked project.now) }
    requires few_rows { NeedTooManyRows (needs_worked project.now) → ⊥ }
    requires counted { length nets.now ≡ length project.now.nets }
    requires terminals { AreTerminals project.now rows.old (value valid) nets.now }
    ensures sets { IfOk result (AreLiveSets project.now rows.new) }
    ensures few_sets { IfOk result (λ sets. length sets ≤ 16384) }
    ensures few_rows { OnOk result (NeedTooManyRows (live_worked project.now) → ⊥) }
    ensures stands { OnOk result (StandsFor rows.new (live_worked project.now)) }
    ensures stop { IfErr result (IsLiveStop project.now) }
    ensures keeps { (x : Condition) → Has rows.old x → Has rows.new x }
    ensures sound { IsSound rows.new }
    ensures same_job { IsSameJob rows.old rows.new }
{
    let mut sets = List::new(alloc);
    for net in 0..project.net_count() {
        let terminals = nets[net as usize].as_slice();
        let patterns = patterns_of(alloc, rows, valid, terminals)?;
        add_sets(&mut sets, NetNo(net), patterns.as_slice())?;
        if sets.len() > MAX_SETS as usize {
            return Err(ActiveStop::Limit {
                which: Which::Sets,
                count: MAX_SETS + 1,
            });
        }
    }
    Ok(sets)
}

/// The live sets of all nets, each with its condition, and the condition that holds exactly under
/// the valid choices. The table has no row yet, as many options as the project, and the limit of a
/// job; after Ok it stands for what was worked out: the rules, the terminals of all nets, the
/// patterns of signs of each net.
///
/// It stops at the first of these: `Limit` where the rows of the rules pass the limit, `NoChoice`
/// where no choice is valid, `Limit` where the rows with those of the terminals pass it, `Clash`
/// where a valid choice makes one cavity active in two nets, and net by net `Limit` where the rows
/// with those of the net's patterns, or the live sets with the net's, pass theirs.
pub fn live_sets<'a>(
    alloc: Global,
    project: &Project,
    rows: &mut Rows<'a>,
) -> Result<Sets<'a>, ActiveStop>
    requires options { rows.old.options ≡ length project.now.options }
    requires limit { rows.old.limit ≡ 262144 }
    requires empty { rows.old.rows ≡ [] }
    ensures valid { IfOk result (λ sets.
        Has rows.new sets.valid × AreSame (value sets.valid) (is_valid_for project.now)) }
    ensures sets { IfOk result (λ sets. AreLiveSets project.now rows.new sets.list) }
    ensures some_choice { OnOk result (SomeIsValid project.now) }
    ensures no_clash { OnOk result (HasNoClash project.now) }
    ensures few_sets { IfOk result (λ sets. length sets.list ≤ 16384) }
    ensures few_rows { OnOk result (NeedTooManyRows (live_worked project.now) → ⊥) }
    ensures stands { OnOk result (StandsFor rows.new (live_worked project.now)) }
    ensures stop { IfErr result (IsLiveStop project.now) }
    ensures sound { IsSound rows.new }
    ensures same_job { IsSameJob rows.old rows.new }
{
    let valid = valid(project, rows)?;
    let nets = terminals_of(alloc, project, valid, rows)?;
    if let Some(clash) = first_clash(alloc, project, rows, nets.as_slice())? {
        return Err(ActiveStop::Clash {
            cavity: clash.cavity,
            first: clash.first,
            second: clash.second,
            choice: clash.choice,
        });
    }
    let list = sets_of(alloc, project, rows, valid, nets.as_slice())?;
    Ok(Sets { valid, list })
}
