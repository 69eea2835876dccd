//! Each call of a list, a stack and a box once.
use plain_data::{Boxed, Items, Stack, at};
use std::alloc::{AllocError, Global};
use std::test::Fail;

/// `[1, 2, 3, 4, 5]`, from a slice, an element and a list.
fn five(alloc: Global) -> Result<Items<u8>, AllocError> {
    let mut items = Items::from_slice(alloc, &[1, 2])?;
    items.push(3)?;
    items.append(Items::from_vec([4, 5].to_vec(alloc)?))?;
    Ok(items)
}

#[test]
fn a_list_is_made_of_its_parts(rt: HostRuntime) -> Result<(), Fail> {
    let items = five(rt.alloc())?;
    assert_eq!(rt; items.as_slice(), [1, 2, 3, 4, 5].as_slice());
    assert_eq!(rt;
        (items.len(), items.get(4), items.get(5)),
        (5, Some(&5), None)
    );
    assert!(rt; Items::<u8>::new(rt.alloc()).is_empty());
    Ok(())
}

#[test]
fn a_list_is_changed_at_its_end_and_in_place(rt: HostRuntime) -> Result<(), Fail> {
    let mut items = Items::from_slice(rt.alloc(), &[1, 2, 3, 4, 5])?;
    assert_eq!(rt; items.pop(), Some(5));
    items.set(0, 9);
    assert_eq!(rt; items.remove(1), 2);
    assert_eq!(rt; at(items.as_slice(), 0), Some(&9));
    assert_eq!(rt; items.into_vec().as_slice(), [9, 3, 4].as_slice());
    Ok(())
}

#[test]
fn a_box_exchanges_its_value(rt: HostRuntime) -> Result<(), Fail> {
    let mut one = Boxed::new(rt.alloc(), 1)?;
    assert_eq!(rt; one.replace(2), 1);
    assert_eq!(rt; *one.get(), 2);
    assert_eq!(rt; one.into_inner(), 2);
    Ok(())
}

#[test]
fn what_is_put_on_last_is_taken_off_first(rt: HostRuntime) -> Result<(), Fail> {
    let mut stack = Stack::new(rt.alloc());
    stack.push(1)?;
    stack.push(2)?;
    stack.push(3)?;
    assert_eq!(rt; stack.pop(), Some(3));
    assert_eq!(rt; stack.take_or(7), 2);
    assert_eq!(rt; stack.take_or(7), 1);
    assert_eq!(rt; stack.take_or(7), 7);
    assert_eq!(rt; stack.pop(), None);
    Ok(())
}
