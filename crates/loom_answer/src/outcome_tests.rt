use crate::{Outcome, object};
use loom_base::{List, Name, NoMemory};
use loom_edits::EditFault;
use loom_json::line;
use loom_project::Of;
use std::alloc::Global;
use std::test::Fail;

/// The line of what is printed of an outcome.
fn told(alloc: Global, outcome: &Outcome) -> Result<List<u8>, NoMemory> {
    line(alloc, &object(alloc, outcome)?)
}

#[test]
fn what_became_of_edits_is_told(rt: HostRuntime) -> Result<(), Fail> {
    let alloc = rt.alloc();
    let in_use = Outcome::Fault(EditFault::InUse {
        of: Of::Node,
        name: Name::parse(b"N2").ok_or("a name")?,
    });
    let wanted = b"{\"kind\":\"InUse\",\"name\":\"N2\",\"of\":\"node\"}\n".as_slice();
    assert!(rt; told(alloc, &in_use)?.as_slice() == wanted);
    assert!(rt; told(alloc, &Outcome::Applied)?.as_slice() == b"null\n".as_slice());
    Ok(())
}

#[test]
fn a_price_and_an_empty_history_are_told(rt: HostRuntime) -> Result<(), Fail> {
    let alloc = rt.alloc();
    let priced = Outcome::Priced {
        cost: 700,
        wires: 1,
    };
    let wanted = b"{\"cost\":700,\"wires\":1}\n".as_slice();
    assert!(rt; told(alloc, &priced)?.as_slice() == wanted);
    let wanted = b"{\"kind\":\"NothingToRedo\"}\n".as_slice();
    assert!(rt; told(alloc, &Outcome::NothingToRedo)?.as_slice() == wanted);
    Ok(())
}
