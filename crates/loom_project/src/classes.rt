ghost use Rattle.std.specs.Prelude.{◌≡◌, ◌≤◌, ◌++◌, [], length, IfOk, OnOk};
ghost use Rattle.std.specs.List.{cons_option};
ghost use Rattle.loom_project.specs.Classes.{net_classes, class_numbers, barred_numbers, segment_bars};

use crate::{NetDraft, SegmentDraft};
use loom_base::{List, Name, NoMemory};
use loom_formula::NameIndex;
use std::alloc::Global;

/// The class of each net and the classes that each segment bars, by their numbers.
#[derive(Drop)]
pub struct Classes {
    pub of_nets: List<u32>,
    pub barred: List<List<u32>>,
}

impl Classes {
    /// The classes of the nets and what the segments bar. A bar that no net has is left out.
    pub fn new(
        alloc: Global,
        nets: &[NetDraft],
        segments: &[SegmentDraft],
    ) -> Result<Classes, NoMemory>
        requires { length nets.now ≤ 2048 }
        ensures of_nets { IfOk result (λ classes. classes.of_nets ≡ class_numbers nets.now) }
        ensures barred { IfOk result (λ classes. classes.barred
            ≡ segment_bars (net_classes nets.now) segments.now) }
    {
        let index = class_index(alloc, nets)?;
        Ok(Classes {
            of_nets: numbers_of_nets(alloc, &index, nets)?,
            barred: bars_of_segments(alloc, &index, segments)?,
        })
    }
}

/// The classes of the nets, each once.
fn class_index(alloc: Global, nets: &[NetDraft]) -> Result<NameIndex, NoMemory>
    requires { length nets.now ≤ 2048 }
    ensures { IfOk result (λ classes. classes ≡ net_classes nets.now) }
{
    let mut classes = NameIndex::new(alloc);
    for net in nets {
        let _is_new = classes.add(net.class)?;
    }
    Ok(classes)
}

/// The number of each net's class.
fn numbers_of_nets(
    alloc: Global,
    classes: &NameIndex,
    nets: &[NetDraft],
) -> Result<List<u32>, NoMemory>
    requires { classes.now ≡ net_classes nets.now }
    ensures { IfOk result (λ numbers. numbers ≡ class_numbers nets.now) }
{
    let mut numbers = List::new(alloc);
    for net in nets {
        let number = classes.position(&net.class).unwrap();
        numbers.push(number)?;
    }
    Ok(numbers)
}

/// Appends a number where there is one.
fn push_some(numbers: &mut List<u32>, number: Option<u32>) -> Result<(), NoMemory>
    ensures { OnOk result (numbers.new ≡ numbers.old ++ cons_option number []) }
{
    if let Some(number) = number {
        numbers.push(number)?;
    }
    Ok(())
}

/// The numbers of the classes that bars name.
fn numbers_of_bars(alloc: Global, classes: &NameIndex, bars: &[Name]) -> Result<List<u32>, NoMemory>
    ensures { IfOk result (λ numbers. numbers ≡ barred_numbers classes.now bars.now) }
{
    let mut numbers = List::new(alloc);
    for bar in bars {
        push_some(&mut numbers, classes.position(bar))?;
    }
    Ok(numbers)
}

/// The numbers of the classes that the bars of each segment name.
#[tactic(auto, using(loom_base::proofs::EachLemmas::each_steps))]
fn bars_of_segments(
    alloc: Global,
    classes: &NameIndex,
    segments: &[SegmentDraft],
) -> Result<List<List<u32>>, NoMemory>
    ensures { IfOk result (λ bars. bars ≡ segment_bars classes.now segments.now) }
{
    let mut bars = List::new(alloc);
    for segment in segments {
        bars.push(numbers_of_bars(alloc, classes, segment.bars.as_slice())?)?;
    }
    Ok(bars)
}
