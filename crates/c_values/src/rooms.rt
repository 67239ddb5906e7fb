//! Rooms for the octets of units, made beforehand.
ghost use Rattle.std.specs.Prelude.{◌≡◌, ◌+◌, ◌<◌, ◌≤◌, length, vec_capacity, IfOk, IsOk, OnErr};
ghost use Rattle.c_values.specs.Rooms.{AreRooms, roomy};

use bcast_base::Memory;
use std::alloc::Global;

/// So many rooms of so many octets each.
pub(crate) fn rooms(alloc: Global, units: usize, octets: usize) -> Result<Vec<Vec<u8>>, Memory>
    ensures rooms { IfOk result (λ spare. AreRooms octets spare.items) }
    ensures count { IfOk result (λ spare. length spare.items ≡ units) }
    ensures capacity { IfOk result (λ spare. units ≤ vec_capacity spare) }
{
    let mut spare = Vec::with_capacity(alloc, units)?;
    'rooms: while spare.len() < units {
        match Vec::with_capacity(alloc, octets) {
            Ok(room) => spare.push_reserved(room),
            Err(_) => return Err(Memory),
        }
    }
    Ok(spare)
}

/// Puts a room to those that wait for octets, where it has so many octets and a place there.
pub(crate) fn put_back(spare: &mut Vec<Vec<u8>>, octets: usize, room: Vec<u8>)
    requires { AreRooms octets spare.old.items }
    ensures rooms { AreRooms octets spare.new.items }
    ensures capacity { vec_capacity spare.new ≡ vec_capacity spare.old }
    ensures more { length spare.old.items ≤ length spare.new.items }
    ensures kept { length spare.old.items < vec_capacity spare.old → length spare.old.items + roomy octets room ≤ length spare.new.items }
{
    if room.capacity() >= octets && spare.len() < spare.capacity() {
        spare.push_reserved(room);
    }
}

/// These octets, in a room that waits where there is one. It takes no memory where the room is enough.
pub(crate) fn filled(
    alloc: Global,
    spare: &mut Vec<Vec<u8>>,
    size: usize,
    octets: &[u8],
) -> Result<Vec<u8>, Memory>
    requires { AreRooms size spare.old.items }
    ensures octets { IfOk result (λ room. room.items ≡ octets.now) }
    ensures rooms { AreRooms size spare.new.items }
    ensures capacity { vec_capacity spare.new ≡ vec_capacity spare.old }
    ensures ok { IfOk result (λ room. length spare.old.items ≤ length spare.new.items + roomy size room) }
    ensures err { OnErr result (length spare.old.items ≤ length spare.new.items) }
    ensures served { 0 < length spare.old.items → length octets.now ≤ size → IsOk result }
{
    let Some(mut room) = spare.pop() else {
        return Ok(Vec::from_slice(alloc, octets)?);
    };
    room.clear();
    if room.extend_from_slice(octets).is_err() {
        put_back(spare, size, room);
        return Err(Memory);
    }
    Ok(room)
}
