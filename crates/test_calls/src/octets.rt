//! Octets and sets of streams.
use bcast_base::{Bis, BisSet, Octets};

/// Whether these octets take three more.
fn grows(octets: &mut Octets) -> bool {
    octets.push(3).is_ok() && octets.append(&[4, 5]).is_ok()
}

/// Whether octets in new memory are the same ones, and a prefix of them once they are cut.
fn comes_again(octets: &Octets) -> bool {
    let Ok(mut again) = octets.copy_again() else {
        return false;
    };
    let whole = again.as_slice() == &[1, 2, 3, 4, 5][..];
    again.truncate(2);
    whole && again.as_slice() == &[1, 2][..]
}

#[test]
fn each_call_that_takes_memory_succeeds_once(rt: HostRuntime) {
    let Ok(mut octets) = Octets::copy(rt.alloc(), &[1, 2]) else {
        return assert!(rt; false);
    };
    assert!(rt; grows(&mut octets) && comes_again(&octets));
}

/// Whether a stream that is taken out leaves the others.
fn leaves_others() -> bool {
    let (Some(first), Some(third), Some(last)) = (Bis::new(1), Bis::new(3), Bis::new(31)) else {
        return false;
    };
    let others = BisSet::new().with(first).with(last);
    let set = others.with(third);
    set.count() == 3 && set.without(third) == others && others.without(third) == others
}

#[test]
fn a_stream_that_is_taken_out_leaves_the_others(rt: HostRuntime) {
    assert!(rt; leaves_others());
}
