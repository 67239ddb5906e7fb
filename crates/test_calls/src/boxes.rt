use bcast_base::Calls;
use std::alloc::Global;
use std::test::*;
use unit_outlets::{FailingTally, Outlet, OutletFault, Tally, take_at};

/// Puts a box that takes each unit, and one behind it that fails at its second call: whether there was memory for both.
fn are_put(alloc: Global, boxes: &mut Vec<Box<dyn Outlet>>) -> bool {
    let Ok(tally) = Box::new(alloc, Tally::new()) else {
        return false;
    };
    let mut failing = Calls::new(alloc);
    if boxes.push(tally).is_err() || failing.push(2).is_err() {
        return false;
    }
    match Box::new(alloc, FailingTally::new(failing)) {
        Ok(tally) => boxes.push(tally).is_ok(),
        Err(_) => false,
    }
}

/// Whether the second of these boxes refuses its second call alone, and the first takes its own.
fn fails_once(boxes: &mut Vec<Box<dyn Outlet>>) -> bool {
    boxes.len() == 2
        && take_at(boxes, 1, &[1, 2, 3, 4, 5]) == Ok(())
        && take_at(boxes, 1, &[6]) == Err(OutletFault::Failed)
        && take_at(boxes, 1, &[7, 8]) == Ok(())
        && take_at(boxes, 0, &[9]) == Ok(())
}

#[test]
fn a_box_fails_at_its_listed_call(rt: HostRuntime) {
    let mut boxes: Vec<Box<dyn Outlet>> = Vec::new(rt.alloc());
    assert!(rt; are_put(rt.alloc(), &mut boxes));
    assert!(rt; fails_once(&mut boxes));
}
