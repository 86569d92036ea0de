//! Lists that are empty, half full and full.
use crate::few::Few;
use crate::items::Full;
use std::test::Fail;

#[test]
fn pushed_until_full(rt: HostRuntime) {
    let mut list = Few::<u32, 3>::new(0);
    assert_eq!(rt; list.as_slice(), [].as_slice());
    for (item, pushed) in [(7, Ok(())), (5, Ok(())), (6, Ok(())), (8, Err(Full))] {
        assert_eq!(rt; list.push(item), pushed, "{item}");
    }
    assert_eq!(rt; list.as_slice(), [7, 5, 6].as_slice());
    list.sort();
    assert_eq!(rt; list.as_slice(), [5, 6, 7].as_slice());
    assert_eq!(rt; list.iter().position(|item| *item == 6), Some(1));
}

#[test]
fn made_of_items(rt: HostRuntime) {
    for (items, fit) in [
        (b"".as_slice(), true),
        (b"ba", true),
        (b"bac", true),
        (b"baca", false),
    ] {
        match Few::<u8, 3>::from_slice(b'-', items) {
            Some(list) => assert_eq!(rt; (list.as_slice(), fit), (items, true)),
            None => assert!(rt; !fit),
        }
    }
}

#[test]
fn without_places(rt: HostRuntime) -> Result<(), Fail> {
    let mut list = Few::<bool, 0>::new(false);
    assert_eq!(rt; list.push(true), Err(Full));
    list.sort();
    let copy = list.clone()?;
    assert!(rt; copy.is_empty());
    assert_eq!(rt; Full.to_string(rt.alloc())?.as_str(), "no place is left");
    Ok(())
}

#[derive(Debug, Clone, Copy, PartialEq, Eq)]
struct Marks {
    served: Few<bool, 3>,
}

#[test]
fn equal_by_items(rt: HostRuntime) {
    let mut marks = Marks {
        served: Few::new(true),
    };
    let none = Marks {
        served: Few::new(false),
    };
    assert_eq!(rt; marks, none);
    assert_eq!(rt; marks.served.push(true), Ok(()));
    assert_ne!(rt; marks, none);
    assert_eq!(rt; marks.served.len(), 1);
}
