//! A sink is synchronized to a BIG of no slot.
ghost use Rattle.std.specs.Prelude.{◌≡◌, ◌≢◌, ◌∷◌, ◌≤◌, ◌<◌, ◌^◌, List, IsSome, None};
ghost use Rattle.big_info.specs.Rows.{first_fault};
ghost use Rattle.big_info.specs.Widths.{FitsWidths};
ghost use Rattle.c_values.specs.Infos.{big_info, row_of};
ghost use Rattle.c_values.specs.Statuses.{group, memory, ok, range};
ghost use Rattle.delegator_history.specs.States.{sync_to_group};
ghost use Rattle.delegator_history.specs.Trains.{Setup};
ghost use Rattle.delegator_machine.specs.Calls.{Call, control};
ghost use Rattle.sink_c.specs.Sinks.{Stands, room_in, waiting_in};

use crate::handle::VmSink;
use bcast_base::BisSet;
use big_info::{Limits, check_group_within};
use c_values::status::{GROUP, MEMORY, OK, RANGE};
use c_values::{AirBigInfo, info_in};

/// Puts the sink on these streams of a group, bit n for the index n + 1, from this event on, with its anchor and the presentation
/// delay in µs. It leaves what it was on.
#[unsafe(no_mangle)]
pub extern "C" fn vm_sink_tune(
    sink: &mut VmSink,
    info: &AirBigInfo,
    streams: u32,
    first_event: u64,
    anchor: u64,
    delay: u32,
    row: &mut u8,
) -> u32
    requires { IsSome sink.old.kept }
    ensures stands { (setup : Setup) (calls : List Call) → Stands setup calls sink.old → result ≡ ok
        → Stands setup
        (control (sync_to_group (record { info = big_info info.now; which = streams; first = first_event; anchor = anchor; delay = delay })) ∷ calls) sink.new }
    ensures group { result ≡ group → row.new ≡ row_of (first_fault 31 (big_info info.now)) }
    ensures fault { result ≡ group → IsSome (first_fault 31 (big_info info.now)) }
    ensures sound { result ≢ range → result ≢ group → first_fault 31 (big_info info.now) ≡ None }
    ensures units { waiting_in sink.new ≡ waiting_in sink.old }
    ensures room { room_in sink.new ≡ room_in sink.old }
    ensures same { result ≢ ok → sink.new.kept ≡ sink.old.kept }
    ensures quiet { result ≢ group → row.new ≡ row.old }
    ensures in_range { FitsWidths (big_info info.now) → 0 < streams → streams < 2 ^ info.now.num_bis → first_event ≤ 2 ^ 39 → anchor ≤ 2 ^ 61
        → delay < 2 ^ 24 → result ≢ range }
    ensures bounds { result ≢ range → FitsWidths (big_info info.now) × (0 < streams) × (first_event ≤ 2 ^ 39) × (anchor ≤ 2 ^ 61)
        × (delay < 2 ^ 24) }
    ensures streams { result ≢ range → result ≢ group → streams < 2 ^ info.now.num_bis }
    ensures either { result ≢ ok → result ≢ range → result ≢ group → result ≡ memory }
{
    let read = info_in(info);
    if first_event > 1 << 39
        || anchor > 1 << 61
        || delay >= 1 << 24
        || streams == 0
        || !read.fits()
    {
        return RANGE;
    }
    let Some(which) = BisSet::of(streams) else {
        return RANGE;
    };
    let checked = match check_group_within(&read, Limits::VERSION_2) {
        Ok(checked) => checked,
        Err(fault) => {
            *row = fault.number();
            return GROUP;
        }
    };
    if u64::from(streams) >> checked.info.num_bis != 0 {
        return RANGE;
    }
    match sink
        .lend()
        .delegator
        .tune(&checked, which, first_event, anchor, delay)
    {
        Ok(()) => OK,
        Err(_) => MEMORY,
    }
}
