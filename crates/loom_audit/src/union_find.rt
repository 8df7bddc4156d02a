//! Points by number, joined by links: each point has a parent, which doesn't come after it, and a
//! root, which is its own parent, stands for all points that are joined to it.
ghost use Rattle.std.specs.Prelude.{ℕ, ◌≡◌, ◌≢◌, ◌<◌, ◌↔◌, All, length, IsTrue, IfOk, MatchBool, MatchOption};
ghost use Rattle.loom_audit.specs.Classes.{merged, class_of, JoinsApart, AreOneClass, AreParents, IsForestOf, IsLinkBelow};

use loom_base::NoMemory;
use std::alloc::Global;

/// The root of a point. On the way each second point is hung higher.
fn root(parents: &mut [usize], point: usize) -> usize
    requires within { point < length parents.old }
    requires parents { AreParents parents.old }
    ensures count { length parents.new ≡ length parents.old }
    ensures within { result < length parents.old }
    ensures parents { AreParents parents.new }
    ensures root { (classes : ℕ → ℕ) → IsForestOf classes parents.old
        → IsForestOf classes parents.new × (result ≡ classes point) × (classes result ≡ result) }
{
    let mut at = point;
    while parents[at] != at {
        let next = parents[parents[at]];
        parents[at] = next;
        at = next;
    }
    at
}

/// Joins the two points of a link; false where they are joined already.
fn join(parents: &mut [usize], link: (usize, usize)) -> bool
    requires within { IsLinkBelow (length parents.old) link }
    requires parents { AreParents parents.old }
    ensures count { length parents.new ≡ length parents.old }
    ensures parents { AreParents parents.new }
    ensures joins { (classes : ℕ → ℕ) → IsForestOf classes parents.old
        → MatchBool result
        ((classes link.0 ≢ classes link.1)
        × IsForestOf (λ x. merged (classes link.0) (classes link.1) (classes x)) parents.new)
        (classes link.0 ≡ classes link.1) }
{
    let start = root(parents, link.0);
    let finish = root(parents, link.1);
    if start == finish {
        return false;
    }
    parents[start.max(finish)] = start.min(finish);
    true
}

/// Each of so many points by itself.
fn apart(alloc: Global, point_count: usize) -> Result<Vec<usize>, NoMemory>
    ensures count { IfOk result (λ parents. length parents.items ≡ point_count) }
    ensures parents { IfOk result (λ parents. AreParents parents.items) }
    ensures forest { IfOk result (λ parents. IsForestOf (λ x. x) parents.items) }
{
    let mut parents = Vec::with_capacity(alloc, point_count)?;
    for point in 0..point_count {
        parents.push(point)?;
    }
    Ok(parents)
}

/// The parents of points once links are laid, from the last to the first; None where one joins two
/// points that those after it have joined.
pub(crate) fn joined(
    alloc: Global,
    links: &[(usize, usize)],
    point_count: usize,
) -> Result<Option<Vec<usize>>, NoMemory>
    requires within { All (IsLinkBelow point_count) links.now }
    ensures { IfOk result (λ found. MatchOption found (JoinsApart links.now → ⊥)
        (λ parents. JoinsApart links.now × (length parents.items ≡ point_count)
        × AreParents parents.items × IsForestOf (class_of links.now) parents.items)) }
{
    let mut parents = apart(alloc, point_count)?;
    for k in (0..links.len()).rev() {
        if !join(&mut parents, links[k]) {
            return Ok(None);
        }
    }
    Ok(Some(parents))
}

/// Whether the points at which links start are all joined.
pub(crate) fn are_all_joined(mut parents: Vec<usize>, links: &[(usize, usize)]) -> bool
    requires within { All (IsLinkBelow (length parents.items)) links.now }
    requires parents { AreParents parents.items }
    ensures { (classes : ℕ → ℕ) → IsForestOf classes parents.items
        → (IsTrue result ↔ AreOneClass classes links.now) }
{
    let Some(first) = links.first() else {
        return true;
    };
    let hub = root(&mut parents, first.0);
    for link in links {
        if root(&mut parents, link.0) != hub {
            return false;
        }
    }
    true
}
