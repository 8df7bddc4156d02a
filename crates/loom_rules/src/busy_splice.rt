ghost use Rattle.std.specs.Prelude.{[], ◌≡◌, ◌==◌, ◌&&◌, ◌≤◌, length, count_by, IfOk, OnOk};
ghost use Rattle.std.specs.BTreeMap.{get};
ghost use Rattle.loom_rules.specs.declared.finding.Finding.{Finding as Found};
ghost use Rattle.loom_rules.specs.Findings.{AreFindings, ends_at_splice, finding_cmp, is_splice};
ghost use Rattle.loom_rules.specs.Tallies.{count_in, IsKept, IsNoted};

use crate::tally::{Tally, note};
use crate::watch::Watch;
use crate::{DesignRule, Finding, Findings};
use loom_base::{List, NetNo, NoMemory};
use loom_types::{End, Wire};
use std::alloc::Global;
use std::collections::BTreeMap;
use std::marker::Model;

/// Finds the splices at which more wires end than the limit.
#[derive(Debug, Drop)]
pub struct BusySplice {
    watch: Watch,
}

impl Model for BusySplice {
    ghost use Rattle.loom_rules.specs.Watched.{Watched};

    ghost Value = { Watched };

    ghost view = { λ rule. rule.watch };
}

impl BusySplice {
    /// A rule of that limit that has seen no wire.
    pub fn new(alloc: Global, limit: u64) -> BusySplice
        ensures { result ≡ record { limit = limit; seen = [] } }
    {
        BusySplice {
            watch: Watch::new(alloc, limit),
        }
    }
}

impl DesignRule for BusySplice {
    ghost kind_of = { λ _. 3 };

    ghost limit_of = { λ rule. rule.limit };

    ghost seen_by = { λ rule. rule.seen };

    fn kind(&self) -> u8 {
        3
    }

    fn limit(&self) -> u64 {
        self.watch.limit()
    }

    fn seen(&self) -> u32 {
        self.watch.wires().len() as u32
    }

    fn set_limit(&mut self, limit: u64) {
        self.watch.set_limit(limit);
    }

    fn see(&mut self, wire: &Wire) -> Result<(), NoMemory> {
        self.watch.see(wire)
    }

    fn finish(&mut self) -> Result<Findings, NoMemory> {
        let watch = &self.watch;
        busy_splices(watch.alloc(), watch.limit(), watch.wires())
    }
}

/// The splices at which more wires end than the limit.
fn busy_splices(alloc: Global, limit: u64, wires: &[Wire]) -> Result<Findings, NoMemory>
    requires { length wires.now ≤ 65536 }
    ensures { IfOk result (AreFindings 3 limit wires.now) }
{
    let tallies = splice_tallies(alloc, wires)?;
    let mut found = List::new(alloc);
    for (splice, tally) in &tallies {
        if tally.count as u64 > limit {
            found.push(*splice)?;
        }
    }
    Ok(found)
}

/// For each splice, as it would be found, how many wires end at it.
fn splice_tallies(alloc: Global, wires: &[Wire]) -> Result<BTreeMap<Finding, Tally>, NoMemory>
    requires { length wires.now ≤ 65536 }
    ensures { IfOk result (λ tallies. (q : Found) → count_in (get finding_cmp tallies q)
        ≡ count_by (ends_at_splice q.first q.second q.third) wires.now) }
{
    let mut tallies = BTreeMap::new(alloc);
    for i in 0..wires.len() {
        note_ends(&mut tallies, &wires[i], i as u32 + 1)?;
    }
    Ok(tallies)
}

/// Notes the splices at which a wire ends.
fn note_ends(
    tallies: &mut BTreeMap<Finding, Tally>,
    wire: &Wire,
    number: u32,
) -> Result<(), NoMemory>
    requires from_one { 1 ≤ number }
    requires kept { (q : Found) → IsKept number (get finding_cmp tallies.old q) }
    ensures noted { OnOk result
        (IsNoted number (λ q. ends_at_splice q.first q.second q.third wire.now)
        (get finding_cmp tallies.old) (get finding_cmp tallies.new)) }
    ensures kept { OnOk result ((q : Found) → IsKept number (get finding_cmp tallies.new q)) }
{
    note_end(tallies, wire.net, wire.from, number)?;
    note_end(tallies, wire.net, wire.to, number)?;
    Ok(())
}

/// Notes the splice of the net that an end is, if it is one.
fn note_end(
    tallies: &mut BTreeMap<Finding, Tally>,
    net: NetNo,
    end: End,
    number: u32,
) -> Result<(), NoMemory>
    requires from_one { 1 ≤ number }
    requires kept { (q : Found) → IsKept number (get finding_cmp tallies.old q) }
    ensures noted { OnOk result
        (IsNoted number (λ q. net.0 == q.first && is_splice q.second q.third end)
        (get finding_cmp tallies.old) (get finding_cmp tallies.new)) }
    ensures kept { OnOk result ((q : Found) → IsKept number (get finding_cmp tallies.new q)) }
{
    match end {
        End::Splice { node, ordinal } => {
            let splice = Finding {
                first: net.0,
                second: node.0,
                third: ordinal,
            };
            note(tallies, splice, number)
        }
        End::Cavity(_) | End::Pin { .. } => Ok(()),
    }
}
