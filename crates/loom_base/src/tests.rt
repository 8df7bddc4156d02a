use crate::{Branch, List, Name, Pins, Price};
use std::test::Fail;

#[test]
fn names_are_parsed(rt: HostRuntime) -> Result<(), Fail> {
    let name = Name::parse(b"X-1_a.b").ok_or("a name")?;
    assert_eq!(rt; name.bytes(), b"X-1_a.b".as_slice());
    assert_eq!(rt; name.as_str(), "X-1_a.b");
    assert_eq!(rt;
        format!(in rt.alloc(); "{name:?}")?.as_str(),
        r#"Name("X-1_a.b")"#
    );
    assert!(rt; Name::parse(b"").is_none());
    assert!(rt; Name::parse(b"two words").is_none());
    assert!(rt; Name::parse(&[b'a'; 33]).is_none());
    Ok(())
}

#[test]
fn numbers_end_at_their_limits(rt: HostRuntime) {
    assert!(rt; Price::new(0).is_none());
    assert!(rt; Price::new(1_000_001).is_none());
    assert!(rt; Branch::new(1_000_001).is_none());
    assert!(rt; Pins::new(513).is_none());
    assert_eq!(rt; Price::new(700).map(|price| price.get()), Some(700));
}

#[test]
fn lists_grow(rt: HostRuntime) -> Result<(), Fail> {
    let mut list = List::new(rt.alloc());
    list.push(1u32).ok().ok_or("memory")?;
    list.extend_from_slice(&[2, 3]).ok().ok_or("memory")?;
    list.set(0, 9);
    let copy = list.copy(rt.alloc()).ok().ok_or("memory")?;
    assert_eq!(rt; copy.as_slice(), [9, 2, 3].as_slice());
    assert_eq!(rt; copy.get(3), None);
    Ok(())
}

#[test]
fn lists_are_edited(rt: HostRuntime) -> Result<(), Fail> {
    let mut list = List::from_slice(rt.alloc(), &[1u32, 2, 3])
        .ok()
        .ok_or("memory")?;
    assert_eq!(rt; list.len(), 3);
    list.insert(1, 9).ok().ok_or("memory")?;
    assert_eq!(rt; list.as_slice(), [1, 9, 2, 3].as_slice());
    assert_eq!(rt; list.remove(2), 2);
    assert_eq!(rt; list.as_slice(), [1, 9, 3].as_slice());
    list.truncate(1);
    assert_eq!(rt; list.as_slice(), [1].as_slice());
    Ok(())
}
