ghost use Rattle.std.specs.Prelude.{◌≡◌, ◌≤◌, ◌-◌, ◌^◌, List, None, true, is_some, IfOk, OnErr, OnOk};
ghost use Rattle.big_info.specs.Widths.{FitsWidths};
ghost use Rattle.source_machine.specs.Calls.{Call, Setup as Fixed};
ghost use Rattle.multi_source.specs.State.Fields.{HasOwnAir, IsPlain, Sending, begun_of, source_of};

use crate::numbers::{SINGLE, setup_of};
use bcast_base::Bis;
use big_info::{BigInfo, Limits};
use multi_source::{Field, FieldFault};
use radio_schedule::AirFault;
use source_machine::{EventFault, StaleList};
use std::alloc::Global;

/// Two sources that weren't started.
fn idle(alloc: Global) -> Field
    ensures first { begun_of result 0 ≡ None }
    ensures second { begun_of result 1 ≡ None }
{
    Field::new(alloc)
}

/// Starts a source of this group, which is not encrypted, with this advertising SID, at event 0.
fn starts(field: &mut Field, s: u8, alloc: Global, info: BigInfo, sid: u8) -> Result<(), FieldFault>
    requires number { s ≤ 1 }
    requires unbegun { begun_of field.old s ≡ None }
    requires widths { FitsWidths info }
    requires plain { info.cipher ≡ None }
    ensures own_air { OnOk result (HasOwnAir (source_of field.new s) (begun_of field.new s)) }
    ensures plain { OnOk result (IsPlain (source_of field.new s)) }
    ensures begun { OnOk result (is_some (begun_of field.new s) ≡ true) }
    ensures sending { OnOk result ((fixed : Fixed) × (calls : List Call)
        × Sending fixed calls (source_of field.new s) (begun_of field.new s)) }
    ensures other_source { OnOk result (source_of field.new (1 - s) ≡ source_of field.old (1 - s)) }
    ensures other_begun { OnOk result (begun_of field.new (1 - s) ≡ begun_of field.old (1 - s)) }
    ensures err { OnErr result (field.new ≡ field.old) }
{
    let Some(setup) = setup_of(alloc, info, sid, 20000) else {
        return Err(FieldFault::Memory);
    };
    field.start(s, setup, Limits::VERSION_2, 0)
}

/// Starts both sources, of which the second one is refused first, since it has the SID of the first one.
fn both_start(field: &mut Field, alloc: Global, info: BigInfo) -> Result<(), &'static str>
    requires first { begun_of field.old 0 ≡ None }
    requires second { begun_of field.old 1 ≡ None }
    requires widths { FitsWidths info }
    requires plain { info.cipher ≡ None }
    ensures own_air { OnOk result (HasOwnAir (source_of field.new 0) (begun_of field.new 0)) }
    ensures plain { OnOk result (IsPlain (source_of field.new 0)) }
    ensures second { OnOk result (is_some (begun_of field.new 1) ≡ true) }
    ensures sending { OnOk result ((fixed : Fixed) × (calls : List Call)
        × Sending fixed calls (source_of field.new 0) (begun_of field.new 0)) }
{
    let Ok(()) = starts(field, 0, alloc, info, 1) else {
        return Err("no first source");
    };
    let Err(FieldFault::IdentTwice) = starts(field, 1, alloc, info, 1) else {
        return Err("no refusal");
    };
    let Ok(()) = starts(field, 1, alloc, info, 2) else {
        return Err("no second source");
    };
    Ok(())
}

/// Performs the next event of source 0.
fn performs(field: &mut Field) -> Result<StaleList, EventFault>
    requires own_air { HasOwnAir (source_of field.old 0) (begun_of field.old 0) }
    requires plain { IsPlain (source_of field.old 0) }
    requires sending { (fixed : Fixed) × (calls : List Call) × Sending fixed calls (source_of field.old 0) (begun_of field.old 0) }
    ensures sends { OnOk result (is_some (source_of field.new 0) ≡ true) }
    ensures heard { OnOk result (is_some (begun_of field.new 0) ≡ true) }
    ensures other { begun_of field.new 1 ≡ begun_of field.old 1 }
{
    field.event(0)
}

/// Whether source 0, which was stopped after its next event, has that event on its air, and source 1 none.
fn is_heard_once_stopped(field: &mut Field, one: Bis) -> bool
    requires own_air { HasOwnAir (source_of field.old 0) (begun_of field.old 0) }
    requires plain { IsPlain (source_of field.old 0) }
    requires second { is_some (begun_of field.old 1) ≡ true }
    requires sending { (fixed : Fixed) × (calls : List Call) × Sending fixed calls (source_of field.old 0) (begun_of field.old 0) }
{
    let Ok(_) = performs(field) else {
        return false;
    };
    field.stop(0);
    let Ok(pdu) = field.heard_at(0, 0, one, 0) else {
        return false;
    };
    pdu == [0x01, 0x00].as_slice()
        && field.heard_at(1, 0, one, 0) == Err(AirFault::NotOnAir)
        && field.source(0).is_none()
}

/// The same behind the start of both.
fn is_heard_beside_the_other(field: &mut Field, alloc: Global, info: BigInfo) -> bool
    requires first { begun_of field.old 0 ≡ None }
    requires second { begun_of field.old 1 ≡ None }
    requires widths { FitsWidths info }
    requires plain { info.cipher ≡ None }
{
    let Some(one) = Bis::new(1) else {
        return false;
    };
    let Ok(()) = both_start(field, alloc, info) else {
        return false;
    };
    is_heard_once_stopped(field, one)
}

/// Whether a sink that is put on source 0 is of it, and another is of none.
fn keeps_its_sink(field: &mut Field) -> bool {
    field.put(7, 0);
    field.of(7) == Some(0) && field.of(6).is_none()
}

#[test]
fn a_source_that_was_stopped_is_still_heard_beside_the_other(rt: HostRuntime) {
    assert!(rt; SINGLE.fits());
    let mut field = idle(rt.alloc());
    assert!(rt;
        is_heard_beside_the_other(&mut field, rt.alloc(), SINGLE) && keeps_its_sink(&mut field)
    );
}
