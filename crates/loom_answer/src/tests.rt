use crate::{limit, project_fault};
use loom_base::{List, Name, NoMemory, Which};
use loom_json::line;
use loom_project::{Of, ProjectFault};
use std::alloc::Global;
use std::test::Fail;

/// The line of a fault's object.
fn line_of(alloc: Global, fault: &ProjectFault) -> Result<List<u8>, NoMemory> {
    line(alloc, &project_fault(alloc, fault)?)
}

#[test]
fn a_fault_is_told_with_its_names(rt: HostRuntime) -> Result<(), Fail> {
    let alloc = rt.alloc();
    let name = Name::parse(b"X1").ok_or("a name")?;
    let reserved = ProjectFault::ReservedPin {
        segment: name,
        pin: 3,
    };
    let wanted = b"{\"kind\":\"ReservedPin\",\"pin\":3,\"segment\":\"X1\"}\n".as_slice();
    assert!(rt; line_of(alloc, &reserved)?.as_slice() == wanted);
    let unknown = ProjectFault::UnknownName {
        of: Of::OptionName,
        name,
    };
    let wanted = b"{\"kind\":\"UnknownName\",\"name\":\"X1\",\"of\":\"option\"}\n".as_slice();
    assert!(rt; line_of(alloc, &unknown)?.as_slice() == wanted);
    Ok(())
}

#[test]
fn a_limit_is_told_with_its_count(rt: HostRuntime) -> Result<(), Fail> {
    let alloc = rt.alloc();
    let passed = limit(alloc, Which::Terminals, 13)?;
    let wanted = b"{\"count\":13,\"kind\":\"Limit\",\"which\":\"terminals\"}\n".as_slice();
    assert!(rt; line(alloc, &passed)?.as_slice() == wanted);
    Ok(())
}
