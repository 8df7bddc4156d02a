ghost use Rattle.std.specs.Prelude.{ℕ, [], ◌≡◌, ◌==◌, ◌≤◌, length, count_by, IfOk, OnOk};
ghost use Rattle.std.specs.List.{list_any};
ghost use Rattle.std.specs.Ordering.{nat_cmp};
ghost use Rattle.std.specs.BTreeMap.{get};
ghost use Rattle.loom_rules.specs.Findings.{AreFindings, has_segment};
ghost use Rattle.loom_rules.specs.Tallies.{count_in, IsKept, IsNoted};

use crate::tally::{Tally, note};
use crate::watch::Watch;
use crate::{DesignRule, Finding, Findings};
use loom_base::{List, NoMemory, SegmentNo};
use loom_types::Wire;
use std::alloc::Global;
use std::collections::BTreeMap;
use std::marker::Model;

/// Finds the segments that stand in the routes of more wires than the limit.
#[derive(Debug, Drop)]
pub struct CrowdedSegment {
    watch: Watch,
}

impl Model for CrowdedSegment {
    ghost use Rattle.loom_rules.specs.Watched.{Watched};

    ghost Value = { Watched };

    ghost view = { λ rule. rule.watch };
}

impl CrowdedSegment {
    /// A rule of that limit that has seen no wire.
    pub fn new(alloc: Global, limit: u64) -> CrowdedSegment
        ensures { result ≡ record { limit = limit; seen = [] } }
    {
        CrowdedSegment {
            watch: Watch::new(alloc, limit),
        }
    }
}

impl DesignRule for CrowdedSegment {
    ghost kind_of = { λ _. 2 };

    ghost limit_of = { λ rule. rule.limit };

    ghost seen_by = { λ rule. rule.seen };

    fn kind(&self) -> u8 {
        2
    }

    fn limit(&self) -> u64 {
        self.watch.limit()
    }

    fn seen(&self) -> u32 {
        self.watch.wires().len() as u32
    }

    fn set_limit(&mut self, limit: u64) {
        self.watch.set_limit(limit);
    }

    fn see(&mut self, wire: &Wire) -> Result<(), NoMemory> {
        self.watch.see(wire)
    }

    fn finish(&mut self) -> Result<Findings, NoMemory> {
        let watch = &self.watch;
        crowded_segments(watch.alloc(), watch.limit(), watch.wires())
    }
}

/// The segments that stand in the routes of more wires than the limit.
fn crowded_segments(alloc: Global, limit: u64, wires: &[Wire]) -> Result<Findings, NoMemory>
    requires { length wires.now ≤ 65536 }
    ensures { IfOk result (AreFindings 2 limit wires.now) }
{
    let tallies = segment_tallies(alloc, wires)?;
    let mut found = List::new(alloc);
    for (segment, tally) in &tallies {
        if tally.count as u64 > limit {
            found.push(Finding {
                first: *segment,
                second: tally.count,
                third: 0,
            })?;
        }
    }
    Ok(found)
}

/// For each segment, how many wires have it in their routes.
fn segment_tallies(alloc: Global, wires: &[Wire]) -> Result<BTreeMap<u32, Tally>, NoMemory>
    requires { length wires.now ≤ 65536 }
    ensures { IfOk result (λ tallies. (q : ℕ) →
        count_in (get nat_cmp tallies q) ≡ count_by (has_segment q) wires.now) }
{
    let mut tallies = BTreeMap::new(alloc);
    for i in 0..wires.len() {
        note_route(&mut tallies, wires[i].route.as_slice(), i as u32 + 1)?;
    }
    Ok(tallies)
}

/// Notes each segment of a route.
fn note_route(
    tallies: &mut BTreeMap<u32, Tally>,
    route: &[SegmentNo],
    number: u32,
) -> Result<(), NoMemory>
    requires from_one { 1 ≤ number }
    requires kept { (q : ℕ) → IsKept number (get nat_cmp tallies.old q) }
    ensures noted { OnOk result (IsNoted number (λ q. list_any (λ s. s.0 == q) route.now)
        (get nat_cmp tallies.old) (get nat_cmp tallies.new)) }
    ensures kept { OnOk result ((q : ℕ) → IsKept number (get nat_cmp tallies.new q)) }
{
    for segment in route {
        note(tallies, segment.0, number)?;
    }
    Ok(())
}
