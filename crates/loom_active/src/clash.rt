ghost use Rattle.std.specs.Prelude.{◌≡◌, ◌≤◌, ◌<◌, ◌++◌, ℕ, [], length, slice_index_or, slice_get, Some, IfOk, OnOk, IfSome, IfNone};
ghost use Rattle.std.specs.List.{filter_map};
ghost use Rattle.std.specs.Prelude.{List as Items};
ghost use Rattle.loom_formula.specs.Choice.{choice_at};
ghost use Rattle.loom_rows.specs.Condition.{value};
ghost use Rattle.loom_rows.specs.Table.{Has};
ghost use Rattle.loom_active.specs.declared.terminals.Terminal.{Terminal as NetTerminal};
ghost use Rattle.loom_active.specs.Needs.{is_valid_for};
ghost use Rattle.loom_active.specs.Clash.{HasNoClash, IsFirstClash};
ghost use Rattle.loom_active.specs.Terminals.{AreTerminals};
ghost use Rattle.loom_active.specs.Users.{user_of, users_of, HasUsers, AreUnmet, IsFirstMet, AreApartBefore, IsFirstPair};

use crate::terminals::Terminal;
use loom_base::{CavityNo, List, NetNo, NoMemory};
use loom_formula::Choice;
use loom_project::Project;
use loom_rows::{Cond, Meetings, Rows};
use std::alloc::Global;

/// A net that names a cavity, and when the cavity is active there under a valid choice.
#[derive(Clone, Copy)]
pub(crate) struct User<'a> {
    pub(crate) net: NetNo,
    pub(crate) active: Cond<'a>,
}

/// A cavity that is active in two nets under a choice.
#[derive(Drop)]
pub(crate) struct FirstClash {
    pub(crate) cavity: CavityNo,
    pub(crate) first: NetNo,
    pub(crate) second: NetNo,
    pub(crate) choice: Choice,
}

/// So many cavities without users.
fn no_users<'a>(alloc: Global, cavities: usize) -> Result<Vec<List<User<'a>>>, NoMemory>
    ensures counted { IfOk result (λ users. length users.items ≡ cavities) }
    ensures empty { IfOk result (λ users.
        (cavity : ℕ) → slice_index_or users.items cavity [] ≡ []) }
{
    let mut users = Vec::new(alloc);
    for _ in 0..cavities {
        users.push(List::new(alloc))?;
    }
    Ok(users)
}

/// Puts a net behind the other users of each cavity that it names.
fn add_users<'a>(
    users: &mut Vec<List<User<'a>>>,
    net: NetNo,
    terminals: &[Terminal<'a>],
) -> Result<(), NoMemory>
    requires { (k : ℕ) (terminal : NetTerminal) → slice_get terminals.now k ≡ Some terminal
        → terminal.cavity.0 < length users.old.items }
    ensures counted { OnOk result (length users.new.items ≡ length users.old.items) }
    ensures added { OnOk result ((cavity : ℕ) → cavity < length users.old.items
        → slice_index_or users.new.items cavity []
        ≡ slice_index_or users.old.items cavity []
        ++ filter_map (user_of net.0 cavity) terminals.now) }
{
    for terminal in terminals {
        users[terminal.cavity.0 as usize].push(User {
            net,
            active: terminal.active,
        })?;
    }
    Ok(())
}

/// The users of each cavity, in order of nets.
fn users_of<'a>(
    alloc: Global,
    cavities: usize,
    nets: &[List<Terminal<'a>>],
) -> Result<Vec<List<User<'a>>>, NoMemory>
    requires few { length nets.now ≤ 2048 }
    requires in_range { (net k : ℕ) (terminals : Items NetTerminal) (terminal : NetTerminal)
        → slice_get nets.now net ≡ Some terminals → slice_get terminals k ≡ Some terminal
        → terminal.cavity.0 < cavities }
    ensures counted { IfOk result (λ users. length users.items ≡ cavities) }
    ensures users { IfOk result (λ users. (cavity : ℕ) → cavity < cavities
        → slice_index_or users.items cavity [] ≡ users_of nets.now cavity) }
{
    let mut users = no_users(alloc, cavities)?;
    for (net, terminals) in nets.iter().enumerate() {
        add_users(&mut users, NetNo(net as u32), terminals.as_slice())?;
    }
    Ok(users)
}

/// The first of the users whose condition holds together with this one.
fn first_met<'a>(
    meetings: &mut Meetings<'_, 'a>,
    cond: Cond<'a>,
    users: &[User<'a>],
) -> Result<Option<User<'a>>, NoMemory>
    requires has { Has meetings.old cond }
    requires users { HasUsers meetings.old users.now }
    ensures some { IfOk result (λ met. IfSome met (IsFirstMet (value cond.entry) users.now)) }
    ensures none { IfOk result (λ met. IfNone met (AreUnmet (value cond.entry) users.now)) }
    ensures unchanged { meetings.new ≡ meetings.old }
{
    for user in users {
        if meetings.meet(cond, user.active)? {
            return Ok(Some(*user));
        }
    }
    Ok(None)
}

/// The first two of the users whose conditions hold together.
fn first_pair<'a>(
    meetings: &mut Meetings<'_, 'a>,
    users: &[User<'a>],
) -> Result<Option<(User<'a>, User<'a>)>, NoMemory>
    requires { HasUsers meetings.old users.now }
    ensures some { IfOk result (λ pair.
        IfSome pair (λ both. IsFirstPair users.now both.0 both.1)) }
    ensures none { IfOk result (λ pair.
        IfNone pair (AreApartBefore (length users.now) users.now)) }
    ensures unchanged { meetings.new ≡ meetings.old }
{
    for (at, user) in users.iter().enumerate() {
        if let Some(other) = first_met(meetings, user.active, &users[at + 1..])? {
            return Ok(Some((*user, other)));
        }
    }
    Ok(None)
}

/// The first clash in order of cavities, then of the first net, then of the second, with the least
/// choice that makes it.
pub(crate) fn first_clash<'a>(
    alloc: Global,
    project: &Project,
    rows: &Rows<'a>,
    nets: &[List<Terminal<'a>>],
) -> Result<Option<FirstClash>, NoMemory>
    requires terminals { AreTerminals project.now rows.now (is_valid_for project.now) nets.now }
    requires counted { length nets.now ≡ length project.now.nets }
    ensures some { IfOk result (λ found. IfSome found (λ clash.
        IsFirstClash project.now clash.cavity.0 clash.first.0 clash.second.0
        (choice_at clash.choice.values))) }
    ensures whole { IfOk result (λ found. IfSome found (λ clash.
        length clash.choice.values ≡ rows.now.options)) }
    ensures none { IfOk result (λ found. IfNone found (HasNoClash project.now)) }
{
    let users = users_of(alloc, project.draft().cavities.len(), nets)?;
    let mut meetings = Meetings::new(rows);
    for (cavity, users) in users.iter().enumerate() {
        if let Some((first, second)) = first_pair(&mut meetings, users.as_slice())? {
            let Some(choice) = rows.meets(first.active, second.active)? else {
                unreachable!()
            };
            return Ok(Some(FirstClash {
                cavity: CavityNo(cavity as u32),
                first: first.net,
                second: second.net,
                choice,
            }));
        }
    }
    Ok(None)
}
