// Each method once, at a type that is copied and at one that isn't.
use super::*;
use std::test::Fail;

fn joined<T: Drop>(mut items: Items<T>, more: Items<T>) -> Option<Items<T>> {
    items.append(more).ok()?;
    Some(items)
}

#[test]
fn numbers(rt: HostRuntime) -> Result<(), Fail> {
    let alloc = rt.alloc();
    let mut items = Items::from_slice(alloc, &[1, 2])?;
    items.push(3)?;
    items.extend_from_slice(&[4, 5])?;
    let more = Items::from_slice(alloc, &[6])?;
    let mut items = joined(items, more).ok_or("memory")?;
    assert_eq!(rt; items.pop(), Some(6));
    assert_eq!(rt; items.iter().copied().rev().next(), Some(5));
    assert_eq!(rt; items.get(5), None);
    if items.len() == 5 {
        items.set(4, 9);
    }
    assert_eq!(rt; items.into_vec().as_slice(), [1, 2, 3, 4, 9].as_slice());
    Ok(())
}

#[test]
fn lists_of_lists(rt: HostRuntime) -> Result<(), Fail> {
    let alloc = rt.alloc();
    let inner = Items::from_slice(alloc, &[7, 8])?;
    let mut outer = Items::new(alloc);
    outer.push(inner)?;
    let mut copy = outer.clone()?;
    let item = copy.pop().ok_or("empty")?;
    assert_eq!(rt; item.as_slice(), [7, 8].as_slice());
    assert!(rt; copy.is_empty());
    assert_eq!(rt; outer.len(), 1);
    Ok(())
}
