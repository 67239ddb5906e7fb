//! A source is made and freed.
ghost use Rattle.std.specs.Prelude.{◌≡◌, ◌≢◌, ◌≤◌, ◌<◌, ◌^◌, [], IfOk, IfErr, IsOk, IsSome, OnOk, Ok};
ghost use Rattle.base_grammar.specs.Layout.{Endpoint};
ghost use Rattle.base_grammar.specs.Reading.{base_of};
ghost use Rattle.big_info.specs.Widths.{FitsWidths};
ghost use Rattle.c_values.specs.Infos.{big_info};
ghost use Rattle.c_values.specs.Statuses.{group, layout, memory, ok, range};
ghost use Rattle.source_machine.specs.Ciphers.{MayBeSent};
ghost use Rattle.source_machine.specs.State.Sources.{Source};
ghost use Rattle.source_c.specs.Sources.{Holds, Stands, source_c, stale_in};
ghost use Rattle.source_c.specs.Starts.{IsBadBase, IsBadGroup, StartFails, Starts};

use crate::handle::VmSource;
use crate::machine::SourceMachine;
use base_grammar::{Base, BaseFault, decode_base};
use big_info::{BigInfo, GroupFault, Limits};
use c_handles::Loose;
use c_values::status::{GROUP, LAYOUT, MEMORY, OK, RANGE};
use c_values::{AirBigInfo, AirFault, base_fault_for_c, info_in};
use source_machine::{ConfigureFault, Identity, Setup, SourceIdle, SourceStreaming, StaleList};
use std::alloc::Global;

/// Who a source is: 0 for a public and 1 for a random address, the address, the Advertising_SID and the Broadcast_ID.
#[repr(C)]
#[derive(Clone, Copy)]
pub struct VmIdentity {
    pub address_type: u8,
    pub address: [u8; 6],
    pub sid: u8,
    pub broadcast_id: [u8; 3],
}

/// Why a source doesn't start.
pub enum StartFault {
    BadGroup(GroupFault),
    Memory,
}

/// A source that sends, by what C said of it.
fn started(
    alloc: Global,
    setup: Setup,
    first_event: u64,
    ahead: bool,
) -> Result<SourceStreaming, StartFault>
    requires widths { FitsWidths setup.info }
    requires least { 3000 ≤ setup.origin }
    requires greatest { setup.origin ≤ 2 ^ 48 }
    requires first { first_event < 2 ^ 39 }
    ensures source { IfOk result (λ source. Starts setup ahead first_event source) }
    ensures sent { OnOk result (MayBeSent 31 setup.info) }
    ensures group { IfErr result (λ fault. StartFails setup.info fault) }
{
    let limits = Limits { horizon: 31, ahead };
    let configured = match SourceIdle::new(alloc).configure_within(setup, limits) {
        Ok(configured) => configured,
        Err(kept) => match kept.fault {
            ConfigureFault::BadGroup(fault) => return Err(StartFault::BadGroup(fault)),
            ConfigureFault::Memory => return Err(StartFault::Memory),
        },
    };
    match configured.start(first_event) {
        Ok(source) => Ok(source),
        Err(_) => Err(StartFault::Memory),
    }
}

/// The handle of a source that sends, by what C said of it.
fn made(alloc: Global, setup: Setup, first_event: u64, ahead: bool) -> Result<VmSource, StartFault>
    requires widths { FitsWidths setup.info }
    requires least { 3000 ≤ setup.origin }
    requires greatest { setup.origin ≤ 2 ^ 48 }
    requires first { first_event < 2 ^ 39 }
    ensures kept { IfOk result (λ handle. (source : Source) × Starts setup ahead first_event source × Holds source handle.kept) }
    ensures sent { OnOk result (MayBeSent 31 setup.info) }
    ensures group { IfErr result (λ fault. StartFails setup.info fault) }
{
    let machine = SourceMachine {
        source: started(alloc, setup, first_event, ahead)?,
        stale: StaleList::new(alloc),
        told: 0,
    };
    match Box::new(alloc, machine) {
        Ok(whole) => Ok(VmSource::of(Loose::of(whole))),
        Err(_) => Err(StartFault::Memory),
    }
}

/// A source of a group, whose first event has its anchor at `origin`, in µs.
#[unsafe(no_mangle)]
pub extern "C" fn vm_source_new(
    alloc: Global,
    source: &mut VmSource,
    identity: &VmIdentity,
    info: &AirBigInfo,
    base: &[u8],
    origin: u64,
    first_event: u64,
    times_ahead: bool,
    fault: &mut AirFault,
) -> u32
    ensures stands { result ≡ ok → (read : Endpoint) → base_of base.now ≡ Ok read
        → Stands (source_c identity.now (big_info info.now) origin first_event times_ahead read) [] source.new }
    ensures stale { result ≡ ok → stale_in source.new ≡ [] }
    ensures base { result ≡ layout → IsBadBase (base_of base.now) fault.new }
    ensures group { result ≡ group → IsBadGroup (big_info info.now) fault.new }
    ensures same { result ≢ ok → source.new ≡ source.old }
    ensures quiet { result ≢ layout → result ≢ group → fault.new ≡ fault.old }
    ensures in_range { FitsWidths (big_info info.now) → 3000 ≤ origin → origin ≤ 2 ^ 48 → first_event < 2 ^ 39
        → result ≢ range }
    ensures bounds { result ≢ range
        → FitsWidths (big_info info.now) × (3000 ≤ origin) × (origin ≤ 2 ^ 48) × (first_event < 2 ^ 39) }
    ensures is_base { result ≢ range → result ≢ layout → result ≢ memory → IsOk (base_of base.now) }
    ensures sent { result ≡ ok → MayBeSent 31 (big_info info.now) }
    ensures either { result ≢ ok → result ≢ range → result ≢ layout → result ≢ group → result ≡ memory }
{
    let info = info_in(info);
    if origin < 3000 || origin > 1 << 48 || first_event >= 1 << 39 || !info.fits() {
        return RANGE;
    }
    let base = match decode_base(alloc, base) {
        Ok(base) => base,
        Err(BaseFault::Memory) => return MEMORY,
        Err(found) => {
            *fault = base_fault_for_c(found);
            return LAYOUT;
        }
    };
    let setup = Setup {
        identity: Identity {
            address_type: identity.address_type,
            address: identity.address,
            sid: identity.sid,
            broadcast_id: identity.broadcast_id,
        },
        info,
        base,
        origin,
    };
    match made(alloc, setup, first_event, times_ahead) {
        Ok(made) => {
            *source = made;
            OK
        }
        Err(StartFault::BadGroup(row)) => {
            *fault = AirFault {
                place: 0,
                number: row.number(),
            };
            GROUP
        }
        Err(StartFault::Memory) => MEMORY,
    }
}

/// Frees the source.
#[unsafe(no_mangle)]
pub extern "C" fn vm_source_drop(alloc: Global, source: VmSource)
    requires { IsSome source.kept }
{
    drop(source.into_loose(alloc).into_box());
}
