//! What a source announces of itself.
ghost use Rattle.std.specs.Prelude.{◌≡◌, ◌≢◌, ◌≤◌, ◌<◌, ◌+◌, ◌++◌, List, length, take, IfSome, IsSome, IfNone, None};
ghost use Rattle.announcement_train.specs.Layout.{IsTrain};
ghost use Rattle.announcement_train.specs.Told.{Tells};
ghost use Rattle.announcement_train.specs.declared.train.Train.{Train};
ghost use Rattle.c_values.specs.Statuses.{memory, no_room, ok};
ghost use Rattle.source_machine.specs.Calls.{Call, next_anchor_of, next_of};
ghost use Rattle.source_machine.specs.Faults.{announce_fault};
ghost use Rattle.source_c.specs.Announced.{IsShort, announced_c, group_of, train_in};
ghost use Rattle.source_c.specs.Sources.{Source, Stands};

use crate::handle::VmSource;
use c_values::status::{COUNTER_ENDS, MEMORY, OK, ROOM};
use source_machine::{AnnounceFault, Train};

/// A train in a room: how many octets are of the extended advertising, of the periodic advertising behind them, and of its
/// ACAD behind these; and the time of the train, in µs.
#[repr(C)]
#[derive(Clone, Copy)]
pub struct VmTrain {
    pub ext: usize,
    pub adv: usize,
    pub acad: usize,
    pub time: u64,
}

/// Puts a part behind the first `at` octets of the room.
fn put_behind(at: usize, part: &[u8], room: &mut [u8])
    requires { at + length part.now ≤ length room.old }
    ensures count { length room.new ≡ length room.old }
    ensures octets { take (at + length part.now) room.new ≡ take at room.old ++ part.now }
{
    room[at..at + part.len()].copy_from_slice(part);
}

/// Puts the parts of a train one behind the other at the front of the room, where they fit.
fn put_train(train: &Train, room: &mut [u8]) -> Option<VmTrain>
    requires { IsShort train.now }
    ensures some { IfSome result (λ told. train_in told room.new ≡ train.now) }
    ensures counts { IfSome result (λ told. told.ext + told.adv + told.acad ≤ length room.new) }
    ensures none { IfNone result (room.new ≡ room.old) }
    ensures fits { length train.now.ext + length train.now.adv + length train.now.acad ≤ length room.old → IsSome result }
{
    let ext = train.ext.as_slice();
    let adv = train.adv.as_slice();
    let acad = train.acad.as_slice();
    let behind_ext = ext.len();
    let behind_adv = behind_ext + adv.len();
    if behind_adv + acad.len() > room.len() {
        return None;
    }
    put_behind(0, ext, room);
    put_behind(behind_ext, adv, room);
    put_behind(behind_adv, acad, room);
    Some(VmTrain {
        ext: ext.len(),
        adv: adv.len(),
        acad: acad.len(),
        time: train.time,
    })
}

/// Announces the next event: the data of the extended advertising, of the periodic advertising and of its ACAD, one behind
/// the other at the front of the room, with the count of each, and the time. 512 octets are always enough.
#[unsafe(no_mangle)]
pub extern "C" fn vm_source_announce(
    source: &mut VmSource,
    room: &mut [u8],
    train: &mut VmTrain,
) -> u32
    requires { IsSome source.old.kept }
    ensures train { (it : Source) (calls : List Call) → Stands it calls source.old → result ≡ ok
        → IsTrain it.identity.broadcast_id it.base (group_of it) (next_of it.setup calls) (next_anchor_of it.setup calls)
        (train_in train.new room.new) }
    ensures told { (it : Source) (calls : List Call) → Stands it calls source.old → result ≡ ok
        → Tells (train_in train.new room.new) it.identity.broadcast_id it.base (group_of it) (next_of it.setup calls)
        (next_anchor_of it.setup calls) }
    ensures counts { result ≡ ok → train.new.ext + train.new.adv + train.new.acad ≤ length room.new }
    ensures answer { (it : Source) (calls : List Call) → Stands it calls source.old → result ≢ memory → result ≢ no_room
        → result ≡ announced_c (announce_fault it.setup calls) }
    ensures room { 512 ≤ length room.old → result ≢ no_room }
    ensures announced { (it : Source) (calls : List Call) → Stands it calls source.old → result ≡ no_room
        → announce_fault it.setup calls ≡ None }
    ensures short { (it : Source) (calls : List Call) → Stands it calls source.old → result ≡ no_room
        → (made : Train) × IsTrain it.identity.broadcast_id it.base (group_of it) (next_of it.setup calls) (next_anchor_of it.setup calls) made
        × (length room.old < length made.ext + length made.adv + length made.acad) }
    ensures same { source.new.kept ≡ source.old.kept }
    ensures quiet { result ≢ ok → (room.new ≡ room.old) × (train.new ≡ train.old) }
{
    let made = match source.lend().source.announce() {
        Ok(made) => made,
        Err(AnnounceFault::CounterEnds) => return COUNTER_ENDS,
        Err(AnnounceFault::Memory) => return MEMORY,
    };
    let Some(told) = put_train(&made, room) else {
        return ROOM;
    };
    *train = told;
    OK
}
