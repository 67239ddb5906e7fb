//! How many octets are left of some room behind an encoding.
ghost use Rattle.std.specs.Prelude.{◌≡◌, ◌-◌, ◌≤◌, length};
ghost use Rattle.std.specs.List.{flat_map};
ghost use Rattle.std.specs.Option.{SomeIff};
ghost use Rattle.base_grammar.specs.Layout.{entry, subgroup};

use crate::subgroup::{BaseEntry, Subgroup};

// The room behind an entry, or nothing where it passes the room.
fn behind_entry(room: usize, from: &BaseEntry) -> Option<usize>
    ensures { SomeIff result (length (entry from.now) ≤ room) (room - length (entry from.now)) }
{
    room.checked_sub(2)?
        .checked_sub(from.config.as_slice().len())
}

// The room behind entries, or nothing where they pass the room.
fn behind_entries(room: usize, entries: &[BaseEntry]) -> Option<usize>
    ensures { SomeIff result (length (flat_map entry entries.now) ≤ room) (room - length (flat_map entry entries.now)) }
{
    let mut left = room;
    for entry in entries {
        left = behind_entry(left, entry)?;
    }
    Some(left)
}

// The room behind a subgroup, or nothing where it passes the room.
fn behind_subgroup(room: usize, from: &Subgroup) -> Option<usize>
    ensures { SomeIff result (length (subgroup from.now) ≤ room) (room - length (subgroup from.now)) }
{
    let left = room
        .checked_sub(3 + from.codec.len())?
        .checked_sub(from.config.as_slice().len())?
        .checked_sub(from.metadata.as_slice().len())?;
    behind_entries(left, from.entries.as_slice())
}

// The room behind subgroups, or nothing where they pass the room.
pub(crate) fn behind_subgroups(room: usize, subgroups: &[Subgroup]) -> Option<usize>
    ensures { SomeIff result (length (flat_map subgroup subgroups.now) ≤ room) (room - length (flat_map subgroup subgroups.now)) }
{
    let mut left = room;
    for subgroup in subgroups {
        left = behind_subgroup(left, subgroup)?;
    }
    Some(left)
}

// How many octets subgroups have that don't pass the room.
pub(crate) fn size_within(room: usize, subgroups: &[Subgroup]) -> usize
    requires { length (flat_map subgroup subgroups.now) ≤ room }
    ensures { result ≡ length (flat_map subgroup subgroups.now) }
{
    match behind_subgroups(room, subgroups) {
        Some(left) => room - left,
        None => unreachable!(),
    }
}
