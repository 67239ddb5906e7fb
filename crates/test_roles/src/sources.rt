ghost use Rattle.std.specs.Prelude.{◌≡◌, ◌<◌, ◌^◌, None, IfOk};
ghost use Rattle.big_info.specs.Widths.{FitsWidths};

use crate::numbers::{SINGLE, setup_of};
use bcast_base::Bis;
use big_info::BigInfo;
use source_machine::{SourceIdle, SourceStreaming};
use std::alloc::Global;

/// One unit of 4 octets every 10 ms on LE 2M, sent twice.
const TWICE: BigInfo = BigInfo {
    nse: 2,
    irc: 2,
    sub_interval: 400,
    ..SINGLE
};

/// The source of a group that is not encrypted, from this event on; or none where the group or memory is wanting.
fn streaming(alloc: Global, info: BigInfo, first: u64) -> Result<SourceStreaming, &'static str>
    requires widths { FitsWidths info }
    requires first { first < 2 ^ 39 }
    ensures { IfOk result (λ source. source.cipher ≡ info.cipher) }
{
    let Some(setup) = setup_of(alloc, info, 0, 20000) else {
        return Err("no memory");
    };
    let Ok(configured) = SourceIdle::new(alloc).configure(setup) else {
        return Err("no group");
    };
    let Ok(source) = configured.start(first) else {
        return Err("no memory");
    };
    Ok(source)
}

/// Whether an event that is performed without a broadcast's air has this PDU alone, twice, and none is stale.
fn sends_twice(source: &mut SourceStreaming, pdu: &[u8]) -> bool
    requires { source.old.cipher ≡ None }
{
    let Ok(sent) = source.event() else {
        return false;
    };
    match sent.pdus.as_slice() {
        [first, copy] => {
            first.as_slice() == pdu && copy.as_slice() == pdu && sent.stale.count() == 0
        }
        _ => false,
    }
}

/// Whether a unit is taken and sent twice in the next event, that of number 3.
fn sends_its_unit(source: &mut SourceStreaming, one: Bis) -> bool
    requires { source.old.cipher ≡ None }
{
    if source.give(one, None, &[0xC0]).is_err() {
        return false;
    }
    sends_twice(source, &[0x00, 0x01, 0xC0])
        && source.next_event() == 4
        && source.next_anchor() == 30000
}

#[test]
fn a_source_sends_each_pdu_at_its_place(rt: HostRuntime) {
    assert!(rt; TWICE.fits());
    let Some(one) = Bis::new(1) else {
        return assert!(rt; false);
    };
    let Ok(mut source) = streaming(rt.alloc(), TWICE, 3) else {
        return assert!(rt; false);
    };
    assert!(rt; sends_its_unit(&mut source, one));
    let _ = source.stop().release();
}
