ghost use Rattle.std.specs.Prelude.{◌≡◌, IfOk};

use crate::{Draft, NetDraft, SegmentDraft, TerminalDraft};
use loom_base::{List, NoMemory};
use loom_formula::Formula;
use std::alloc::Global;

impl Draft {
    /// A draft equal to this one.
    pub fn copy(&self, alloc: Global) -> Result<Draft, NoMemory>
        ensures { IfOk result (λ copy. copy ≡ self.now) }
    {
        Ok(Draft {
            options: self.options.copy(alloc)?,
            rules: copied_rules(alloc, self.rules.as_slice())?,
            nodes: self.nodes.copy(alloc)?,
            segments: copied_segments(alloc, self.segments.as_slice())?,
            cavities: self.cavities.copy(alloc)?,
            nets: copied_nets(alloc, self.nets.as_slice())?,
        })
    }
}

impl SegmentDraft {
    /// A segment equal to this one.
    pub fn copy(&self, alloc: Global) -> Result<SegmentDraft, NoMemory>
        ensures { IfOk result (λ copy. copy ≡ self.now) }
    {
        Ok(SegmentDraft {
            name: self.name,
            from: self.from,
            to: self.to,
            kind: self.kind,
            bars: self.bars.copy(alloc)?,
            reserved: self.reserved.copy(alloc)?,
        })
    }
}

impl TerminalDraft {
    /// A terminal equal to this one.
    pub fn copy(&self, alloc: Global) -> Result<TerminalDraft, NoMemory>
        ensures { IfOk result (λ copy. copy ≡ self.now) }
    {
        Ok(TerminalDraft {
            cavity: self.cavity,
            when: self.when.copy(alloc)?,
        })
    }
}

impl NetDraft {
    /// A net equal to this one.
    pub fn copy(&self, alloc: Global) -> Result<NetDraft, NoMemory>
        ensures { IfOk result (λ copy. copy ≡ self.now) }
    {
        Ok(NetDraft {
            name: self.name,
            class: self.class,
            terminals: copied_terminals(alloc, self.terminals.as_slice())?,
        })
    }
}

#[tactic(auto, using(loom_base::proofs::EachLemmas::each_steps))]
fn copied_rules(alloc: Global, rules: &[Formula]) -> Result<List<Formula>, NoMemory>
    ensures { IfOk result (λ copies. copies ≡ rules.now) }
{
    let mut copies = List::new(alloc);
    for rule in rules {
        copies.push(rule.copy(alloc)?)?;
    }
    Ok(copies)
}

#[tactic(auto, using(loom_base::proofs::EachLemmas::each_steps))]
fn copied_segments(alloc: Global, segments: &[SegmentDraft]) -> Result<List<SegmentDraft>, NoMemory>
    ensures { IfOk result (λ copies. copies ≡ segments.now) }
{
    let mut copies = List::new(alloc);
    for segment in segments {
        copies.push(segment.copy(alloc)?)?;
    }
    Ok(copies)
}

#[tactic(auto, using(loom_base::proofs::EachLemmas::each_steps))]
fn copied_terminals(
    alloc: Global,
    terminals: &[TerminalDraft],
) -> Result<List<TerminalDraft>, NoMemory>
    ensures { IfOk result (λ copies. copies ≡ terminals.now) }
{
    let mut copies = List::new(alloc);
    for terminal in terminals {
        copies.push(terminal.copy(alloc)?)?;
    }
    Ok(copies)
}

#[tactic(auto, using(loom_base::proofs::EachLemmas::each_steps))]
fn copied_nets(alloc: Global, nets: &[NetDraft]) -> Result<List<NetDraft>, NoMemory>
    ensures { IfOk result (λ copies. copies ≡ nets.now) }
{
    let mut copies = List::new(alloc);
    for net in nets {
        copies.push(net.copy(alloc)?)?;
    }
    Ok(copies)
}
