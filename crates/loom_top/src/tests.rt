ghost use Rattle.std.specs.Prelude.{[], ◌≡◌, IfOk};

use crate::{Status, run};
use loom_base::{List, NoMemory, SteadySink, SteadySource};
use loom_rules::{DesignRule, Findings, LongWire, add_rule};
use loom_types::Wire;
use std::alloc::Global;
use std::cell::Cell;
use std::rc::Rc;
use std::test::Fail;

/// Two nodes, a run between them, a cavity at each, and a net of both cavities.
const ONE_WIRE: &str = "{\"version\":1,\"project\":{\"options\":[],\"rules\":[],\
     \"nodes\":[{\"name\":\"N1\",\"harness\":\"H\",\"branch\":0},\
     {\"name\":\"N2\",\"harness\":\"H\",\"branch\":0}],\
     \"segments\":[{\"name\":\"S1\",\"from\":\"N1\",\"to\":\"N2\",\"length\":700}],\
     \"cavities\":[{\"name\":\"C1\",\"device\":\"D\",\"node\":\"N1\"},\
     {\"name\":\"C2\",\"device\":\"D\",\"node\":\"N2\"}],\
     \"nets\":[{\"name\":\"W1\",\"terminals\":[\
     {\"cavity\":\"C1\",\"when\":true},{\"cavity\":\"C2\",\"when\":true}]}]}}";

/// A rule that sees so many wires, then refuses, and whose findings are refused. It raises a counter
/// when it is dropped.
struct Refusing {
    rule: LongWire,
    sees: u32,
    drops: Rc<Cell<u64>>,
}

impl Refusing {
    fn new(alloc: Global, sees: u32, drops: &Rc<Cell<u64>>) -> Result<Refusing, Fail>
        ensures { IfOk result (λ refusing. refusing.rule.seen ≡ []) }
    {
        Ok(Refusing {
            rule: LongWire::new(alloc, 1),
            sees,
            drops: drops.clone()?,
        })
    }
}

impl Drop for Refusing {
    fn drop(self) {
        self.drops.set(self.drops.get().saturating_add(1));
        let Refusing {
            rule: _,
            sees: _,
            drops: _,
        } = self;
    }
}

impl DesignRule for Refusing {
    ghost kind_of = { λ _. 1 };

    ghost limit_of = { λ refusing. refusing.rule.limit };

    ghost seen_by = { λ refusing. refusing.rule.seen };

    fn kind(&self) -> u8 {
        self.rule.kind()
    }

    fn limit(&self) -> u64 {
        self.rule.limit()
    }

    fn seen(&self) -> u32 {
        self.rule.seen()
    }

    fn set_limit(&mut self, limit: u64) {
        self.rule.set_limit(limit);
    }

    fn see(&mut self, wire: &Wire) -> Result<(), NoMemory> {
        if self.rule.seen() >= self.sees {
            return Err(NoMemory);
        }
        self.rule.see(wire)
    }

    fn finish(&mut self) -> Result<Findings, NoMemory> {
        Err(NoMemory)
    }
}

/// How a run over one wire ends whose second rule of three sees so many wires and then refuses, how
/// many bytes are held then, and how many of two such rules were dropped.
fn run_refused(alloc: Global, sees: u32) -> Result<(Status, usize, u64), Fail> {
    let drops = Rc::new(alloc, Cell::new(0u64))?;
    let mut rules: Vec<Box<dyn DesignRule>> = Vec::new(alloc);
    add_rule(&mut rules, Box::new(alloc, LongWire::new(alloc, 1))?)?;
    let second = Refusing::new(alloc, sees, &drops)?;
    add_rule(&mut rules, Box::new(alloc, second)?)?;
    let third = Refusing::new(alloc, sees, &drops)?;
    add_rule(&mut rules, Box::new(alloc, third)?)?;
    let words = vec![in alloc; String::from_str(alloc, "plan")?]?;
    let mut source = SteadySource::new(List::from_slice(alloc, ONE_WIRE.as_bytes())?);
    let mut sink = SteadySink::new(alloc, 4096)?;
    let status = run(alloc, words.as_slice(), &mut source, &mut sink, rules);
    Ok((status, sink.held().len(), drops.get()))
}

#[test]
fn a_rule_that_refuses_a_wire_ends_the_run(rt: HostRuntime) -> Result<(), Fail> {
    assert_eq!(rt; run_refused(rt.alloc(), 0)?, (Status::NoMemory, 0, 2));
    Ok(())
}

#[test]
fn a_rule_that_refuses_its_findings_ends_the_run(rt: HostRuntime) -> Result<(), Fail> {
    assert_eq!(rt; run_refused(rt.alloc(), 65_536)?, (Status::NoMemory, 0, 2));
    Ok(())
}
