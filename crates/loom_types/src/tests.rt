use crate::{End, Layout, Wire};
use loom_base::{CavityNo, List, NetNo, NodeNo, SegmentNo};
use std::cmp::Ordering;
use std::test::Fail;

#[test]
fn a_copy_of_a_layout_has_its_steps_and_hangs(rt: HostRuntime) -> Result<(), Fail> {
    let alloc = rt.alloc();
    let layout = Layout {
        steps: List::from_slice(alloc, &[(0, SegmentNo(3)), (1, SegmentNo(2))])?,
        hangs: List::from_slice(alloc, &[2, 1])?,
    };
    let copy = layout.copy(alloc)?;
    assert_eq!(rt; copy.steps.len(), 2);
    assert_eq!(rt; copy.steps.get(1), Some(&(1, SegmentNo(2))));
    assert_eq!(rt; copy.hangs.as_slice(), [2, 1].as_slice());
    Ok(())
}

#[test]
fn a_copy_of_a_wire_has_its_ends_and_route(rt: HostRuntime) -> Result<(), Fail> {
    let alloc = rt.alloc();
    let splice = End::Splice {
        node: NodeNo(4),
        ordinal: 1,
    };
    let wire = Wire {
        net: NetNo(6),
        from: End::Cavity(CavityNo(5)),
        to: splice,
        route: List::from_slice(alloc, &[SegmentNo(7)])?,
        length: 700,
        row: 2,
    };
    let copy = wire.copy(alloc)?;
    assert_eq!(rt; copy.net, NetNo(6));
    assert_eq!(rt; copy.from, End::Cavity(CavityNo(5)));
    assert_eq!(rt; copy.to, splice);
    assert_eq!(rt; copy.route.as_slice(), [SegmentNo(7)].as_slice());
    assert_eq!(rt; copy.length, 700);
    assert_eq!(rt; copy.row, 2);
    assert_eq!(rt; wire.order(&copy), Ordering::Equal);
    Ok(())
}
