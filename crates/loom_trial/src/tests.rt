ghost use Rattle.std.specs.Prelude.{◌≤◌};

use crate::trial_project;
use loom_base::{List, Name, NoMemory};
use loom_project::{Draft, Project};
use std::alloc::Global;
use std::test::Fail;

/// Appends three names, one after another.
fn spell(
    spelled: &mut List<u8>,
    first: &Name,
    second: &Name,
    third: &Name,
) -> Result<(), NoMemory> {
    spelled.extend_from_slice(first.bytes())?;
    spelled.extend_from_slice(second.bytes())?;
    spelled.extend_from_slice(third.bytes())
}

/// The names of the segments and of their ends.
fn segments(alloc: Global, draft: &Draft) -> Result<List<u8>, NoMemory> {
    let mut spelled = List::new(alloc);
    for segment in draft.segments.as_slice() {
        spell(&mut spelled, &segment.name, &segment.from, &segment.to)?;
    }
    Ok(spelled)
}

/// The names of the cavities, of their devices and of their nodes.
fn cavities(alloc: Global, draft: &Draft) -> Result<List<u8>, NoMemory> {
    let mut spelled = List::new(alloc);
    for cavity in draft.cavities.as_slice() {
        spell(&mut spelled, &cavity.name, &cavity.device, &cavity.node)?;
    }
    Ok(spelled)
}

/// What the first segment's length or price is, 0 where there is none.
fn first_price(draft: &Draft) -> u64 {
    match draft.segments.get(0) {
        Some(segment) => segment.kind.price(),
        None => 0,
    }
}

/// Whether the trial of so many doors is sound.
fn is_sound(alloc: Global, n: u32) -> Result<bool, NoMemory>
    requires { (1 ≤ n) × (n ≤ 200) }
{
    let draft = trial_project(alloc, n)?;
    Ok(Project::check(alloc, draft).is_ok())
}

#[test]
fn one_door_has_few_parts(rt: HostRuntime) -> Result<(), Fail> {
    let draft = trial_project(rt.alloc(), 1)?;
    let places = (draft.nodes.len(), draft.segments.len());
    assert_eq!(rt; places, (4, 3));
    let joined = (draft.cavities.len(), draft.nets.len());
    assert_eq!(rt; joined, (6, 2));
    assert_eq!(rt; first_price(&draft), 137);
    Ok(())
}

#[test]
fn segments_lead_from_node_to_node(rt: HostRuntime) -> Result<(), Fail> {
    let alloc = rt.alloc();
    let spelled = segments(alloc, &trial_project(alloc, 1)?)?;
    assert_eq!(rt; spelled.as_slice(), b"R1B0B1X1B1D1Q1D1E1".as_slice());
    Ok(())
}

#[test]
fn cavities_lie_in_the_body_and_in_the_door(rt: HostRuntime) -> Result<(), Fail> {
    let alloc = rt.alloc();
    let spelled = cavities(alloc, &trial_project(alloc, 1)?)?;
    let wanted = b"PB1BODYB0PD1DOORE1SB1BODYB1SD1DOORE1SE1BODYB0ST1DOORD1";
    assert_eq!(rt; spelled.as_slice(), wanted.as_slice());
    Ok(())
}

#[test]
fn trials_are_sound(rt: HostRuntime) -> Result<(), Fail> {
    let alloc = rt.alloc();
    assert!(rt; is_sound(alloc, 1)?);
    assert!(rt; is_sound(alloc, 20)?);
    assert!(rt; is_sound(alloc, 200)?);
    Ok(())
}
