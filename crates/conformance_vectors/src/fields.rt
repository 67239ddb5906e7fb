//! Fields of several codecs, written with ample memory.
use bcast_base::{Octets, put_counted, put_number};
use std::alloc::Global;

// Whether a presentation delay of 40000 µs and a configuration of 4 octets are written.
fn are_written(alloc: Global) -> bool {
    let mut out = Octets::new(alloc);
    put_number(&mut out, 40000, 3).is_ok()
        && put_counted(&mut out, &[3, 4, 0x64, 0]).is_ok()
        && out.as_slice() == [0x40, 0x9c, 0, 4, 3, 4, 0x64, 0].as_slice()
}

#[test]
fn fields_are_written(rt: HostRuntime) {
    assert!(rt; are_written(rt.alloc()));
}
