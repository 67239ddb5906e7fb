//! The streams that a sink takes.
ghost use Rattle.std.specs.Prelude.{◌≡◌, ◌≤◌, ◌<◌, ◌↔◌, ℕ, List, IsSome, true};
ghost use Rattle.bcast_base.specs.Bis.{Has};
ghost use Rattle.delegator_history.specs.Trains.{Setup};
ghost use Rattle.delegator_machine.specs.Calls.{Call};
ghost use Rattle.delegator_machine.specs.Groups.{group_calls};
ghost use Rattle.group_sink.specs.Calls.{place};
ghost use Rattle.sink_c.specs.Sinks.{Stands, is_taken};

use crate::handle::VmSink;
use bcast_base::{Bis, BisSet};
use isoal_base::Hearing;

/// Whether the sink takes a stream: it does where it would hear a PDU of it.
fn takes(sink: &mut VmSink, bis: Bis) -> bool
    requires { IsSome sink.old.kept }
    ensures taken { (setup : Setup) (calls : List Call) → Stands setup calls sink.old
        → result ≡ is_taken (place (group_calls setup calls)) bis }
    ensures kept { sink.new.kept ≡ sink.old.kept }
{
    match sink.lend().delegator.would_answer(0, bis, 0, &[]) {
        Hearing::NotOnGroup | Hearing::NotTaken => false,
        Hearing::NoNumber | Hearing::Heard(_) => true,
    }
}

/// The streams that the sink is on: bit n for the index n + 1, none where it is on no group.
#[unsafe(no_mangle)]
pub extern "C" fn vm_sink_streams(sink: &mut VmSink, streams: &mut u32)
    requires { IsSome sink.old.kept }
    ensures taken { (setup : Setup) (calls : List Call) → Stands setup calls sink.old → (bis : ℕ) → 1 ≤ bis → bis ≤ 31
        → (Has streams.new bis ↔ (is_taken (place (group_calls setup calls)) bis ≡ true)) }
    ensures others { (bis : ℕ) → 31 < bis → ¬ Has streams.new bis }
    ensures kept { sink.new.kept ≡ sink.old.kept }
{
    let mut taken = BisSet::new();
    'streams: for index in 1..32u8 {
        let Some(bis) = Bis::new(index) else {
            continue;
        };
        if takes(sink, bis) {
            taken = taken.with(bis);
        }
    }
    *streams = taken.bits();
}
