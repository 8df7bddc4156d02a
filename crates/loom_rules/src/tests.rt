ghost use Rattle.std.specs.Prelude.{[], ◌≡◌};

use crate::{
    BusySplice, CrowdedSegment, DesignRule, Finding, Findings, LongWire, Report, add_rule, judge,
};
use loom_base::{CavityNo, List, NetNo, NoMemory, NodeNo, SegmentNo};
use loom_types::{End, Wire};
use std::alloc::Global;
use std::cell::Cell;
use std::rc::Rc;
use std::test::Fail;

/// A wire of a net from a cavity to a splice at node 4.
fn wire(
    alloc: Global,
    net: u32,
    route: &[SegmentNo],
    ordinal: u32,
    length: u64,
) -> Result<Wire, NoMemory> {
    Ok(Wire {
        net: NetNo(net),
        from: End::Cavity(CavityNo(0)),
        to: End::Splice {
            node: NodeNo(4),
            ordinal,
        },
        route: List::from_slice(alloc, route)?,
        length,
        row: 1,
    })
}

/// Three wires: two of net 6 end at one splice; segment 3 stands in the routes of the first two,
/// twice in the first.
fn three_wires(alloc: Global) -> Result<[Wire; 3], NoMemory> {
    Ok([
        wire(alloc, 6, &[SegmentNo(3), SegmentNo(3)], 1, 700)?,
        wire(alloc, 6, &[SegmentNo(3), SegmentNo(2)], 1, 699)?,
        wire(alloc, 7, &[SegmentNo(9)], 1, 701)?,
    ])
}

fn finding(first: u32, second: u32, third: u32) -> Finding {
    Finding {
        first,
        second,
        third,
    }
}

fn is_report(report: Option<&Report>, kind: u8, limit: u64, findings: &[Finding]) -> bool {
    match report {
        Some(report) => {
            report.kind == kind && report.limit == limit && report.findings.as_slice() == findings
        }
        None => false,
    }
}

#[test]
fn rules_find_what_is_over_their_limits(rt: HostRuntime) -> Result<(), Fail> {
    let alloc = rt.alloc();
    let wires = three_wires(alloc)?;
    let mut rules: Vec<Box<dyn DesignRule>> = Vec::new(alloc);
    add_rule(&mut rules, Box::new(alloc, LongWire::new(alloc, 10_000))?)?;
    add_rule(&mut rules, Box::new(alloc, CrowdedSegment::new(alloc, 0))?)?;
    add_rule(&mut rules, Box::new(alloc, BusySplice::new(alloc, 1))?)?;
    let reports = judge(alloc, &mut rules, &[699, 1], &wires)?;
    assert_eq!(rt; reports.len(), 3);
    let long = [finding(0, 0, 0), finding(2, 0, 0)];
    assert!(rt; is_report(reports.get(0), 1, 699, &long));
    assert!(rt; is_report(reports.get(1), 2, 1, &[finding(3, 2, 0)]));
    assert!(rt; is_report(reports.get(2), 3, 1, &[finding(6, 4, 1)]));
    Ok(())
}

#[test]
fn a_wire_as_long_as_the_limit_is_not_too_long(rt: HostRuntime) -> Result<(), Fail> {
    let alloc = rt.alloc();
    let wires = [wire(alloc, 0, &[SegmentNo(0)], 1, 700)?];
    let mut rules: Vec<Box<dyn DesignRule>> = Vec::new(alloc);
    add_rule(&mut rules, Box::new(alloc, LongWire::new(alloc, 0))?)?;
    add_rule(&mut rules, Box::new(alloc, LongWire::new(alloc, 0))?)?;
    let reports = judge(alloc, &mut rules, &[699, 700], &wires)?;
    assert_eq!(rt; reports.len(), 2);
    assert!(rt; is_report(reports.get(0), 1, 699, &[finding(0, 0, 0)]));
    assert!(rt; is_report(reports.get(1), 1, 700, &[]));
    Ok(())
}

/// A rule that sees one wire, then refuses; its findings too, where it is told so. It raises a
/// counter when it is dropped.
struct Refusing {
    rule: LongWire,
    sees: u32,
    drops: Rc<Cell<u64>>,
}

impl Refusing {
    fn new(alloc: Global, sees: u32, drops: Rc<Cell<u64>>) -> Refusing
        ensures { result.rule.seen ≡ [] }
    {
        Refusing {
            rule: LongWire::new(alloc, 1),
            sees,
            drops,
        }
    }
}

impl Drop for Refusing {
    fn drop(self) {
        self.drops.set(self.drops.get().saturating_add(1));
        let Refusing {
            rule: _,
            sees: _,
            drops: _,
        } = self;
    }
}

impl DesignRule for Refusing {
    ghost kind_of = { λ _. 1 };

    ghost limit_of = { λ refusing. refusing.rule.limit };

    ghost seen_by = { λ refusing. refusing.rule.seen };

    fn kind(&self) -> u8 {
        self.rule.kind()
    }

    fn limit(&self) -> u64 {
        self.rule.limit()
    }

    fn seen(&self) -> u32 {
        self.rule.seen()
    }

    fn set_limit(&mut self, limit: u64) {
        self.rule.set_limit(limit);
    }

    fn see(&mut self, wire: &Wire) -> Result<(), NoMemory> {
        if self.rule.seen() >= self.sees {
            return Err(NoMemory);
        }
        self.rule.see(wire)
    }

    fn finish(&mut self) -> Result<Findings, NoMemory> {
        Err(NoMemory)
    }
}

/// Whether three wires are judged by three rules, of which the second sees that many wires and has
/// no findings; and how often a rule was dropped.
fn judged_by_refusing(alloc: Global, sees: u32) -> Result<(bool, u64), Fail> {
    let wires = three_wires(alloc)?;
    let drops = Rc::new(alloc, Cell::new(0u64))?;
    let mut rules: Vec<Box<dyn DesignRule>> = Vec::new(alloc);
    add_rule(&mut rules, Box::new(alloc, LongWire::new(alloc, 1))?)?;
    add_rule(
        &mut rules,
        Box::new(alloc, Refusing::new(alloc, sees, drops.clone()?))?,
    )?;
    add_rule(
        &mut rules,
        Box::new(alloc, Refusing::new(alloc, sees, drops.clone()?))?,
    )?;
    let judged = judge(alloc, &mut rules, &[], &wires).is_ok();
    drop(rules);
    Ok((judged, drops.get()))
}

#[test]
fn a_rule_that_refuses_its_second_wire_ends_the_judging(rt: HostRuntime) -> Result<(), Fail> {
    assert_eq!(rt; judged_by_refusing(rt.alloc(), 1)?, (false, 2));
    Ok(())
}

#[test]
fn a_rule_that_refuses_its_findings_ends_the_judging(rt: HostRuntime) -> Result<(), Fail> {
    assert_eq!(rt; judged_by_refusing(rt.alloc(), 65_536)?, (false, 2));
    Ok(())
}
