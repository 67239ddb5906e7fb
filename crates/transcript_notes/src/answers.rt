//! The words that a line prints, each with when it comes.

const TRAINS: [(&str, &str); 17] = [
    (
        "NoBroadcastId",
        "EXT has no Service Data of 0x1852 with 3 octets first, or is no advertising data",
    ),
    (
        "NotWanted",
        "no slot has the address type, SID and Broadcast_ID of this source and a PA but 0: `add` it, and `serve`",
    ),
    (
        "OtherTrain",
        "the sink is on the train or the group of another slot, or on a group by `tuned`: `lose` comes before another train",
    ),
    (
        "AlreadyOnGroup",
        "the sink is on the group of this slot; to have it choose anew, `lose`, or `modify` its streams",
    ),
    (
        "NoBase",
        "ADV has no Service Data of 0x1851, or is no advertising data",
    ),
    (
        "BadBase",
        "the first Service Data of 0x1851 in ADV is no BASE",
    ),
    (
        "NoBigInfo",
        "ACAD has no structure of type 0x2c, or is no advertising data",
    ),
    (
        "BadBigInfo",
        "the first structure of type 0x2c in ACAD has neither 33 nor 57 octets",
    ),
    (
        "BadGroup",
        "the numbers of the BIGInfo don't go together, or the group is encrypted (14)",
    ),
    (
        "NoneTaken",
        "no stream of the BASE is both wanted by the slot and taken by a record of the sink",
    ),
    (
        "OnGroup",
        "each stream named is wanted by the slot, is at most NUMBIS and fits a record of the sink",
    ),
    ("NotOnGroup", "the sink is idle or on a train"),
    ("Malformed", "the octets are no PDU"),
    ("NotControl", "the LLID of the PDU is another than 3"),
    (
        "UnknownOpcode",
        "there is no opcode, or another than 0 and 1",
    ),
    (
        "ControlLength",
        "opcode 0 stands before 7 octets, opcode 1 before 3",
    ),
    ("Left", "the group is terminated, and the sink leaves it"),
];

const REPLIES: [(&str, &str); 11] = [
    ("Empty", "the write has no octet"),
    ("Opcode", "the opcode is above 5"),
    (
        "Length",
        "there are fewer or more octets than the fields have",
    ),
    (
        "Rfu",
        "the address type is above 1, the SID above 15, PA_Sync above 2, or a BISSYNC has bit 31 and not every bit",
    ),
    ("BisTwice", "two subgroups want one index"),
    ("SourceUnknown", "no slot has this Source_ID"),
    (
        "NoDecrypt",
        "a Broadcast_Code is set, and no group is decrypted",
    ),
    (
        "Known",
        "a slot has this address type, SID and Broadcast_ID: `modify` it",
    ),
    ("NoRoom", "no slot is empty: `remove` one"),
    (
        "ValueTooLong",
        "the value of the slot would pass 512 octets",
    ),
    (
        "StillSynced",
        "the sink is on the train or the group of the slot: `lose`, or `modify` with PA 0",
    ),
];

const HEARD: [(&str, &str); 8] = [
    (
        "NotOnGroup",
        "the sink is on no group, or its source is not the one that is chosen",
    ),
    ("NotTaken", "the index is none of the streams of the sink"),
    (
        "NoNumber",
        "the place has no payload number in the group of the sink",
    ),
    ("Malformed", "the octets are no PDU"),
    ("WrongKind", "the LLID is not of the framing of the group"),
    (
        "Late",
        "the number is of an event that is closed for this sink, or before its stay",
    ),
    (
        "Beyond",
        "the number is of an event more than H after the one that is open for this sink",
    ),
    (
        "Repeat",
        "a PDU of this number is kept, and the first one counts",
    ),
];

const FORGED: [(&str, &str); 2] = [
    (
        "NoSuchSlot",
        "SLOT is the number of slots of the sink, or more",
    ),
    (
        "BadNotice",
        "1: the octets are cut; 2: a value is reserved; 3: octets follow the last field",
    ),
];

const DROPPED: [(&str, &str); 4] = [
    ("NotStreaming", "source 1 was stopped or terminated"),
    (
        "UnitTooLong",
        "the unit has more octets than MAXSDU of source 1",
    ),
    (
        "TimeOrder",
        "its printed time isn't above that of the last unit that the stream of source 1 took",
    ),
    ("Backlog", "16 units of the stream of source 1 wait"),
];

/// When a word comes.
fn meaning_in(
    table: &'static [(&'static str, &'static str)],
    word: &[u8],
) -> Option<&'static [u8]> {
    for (name, comes) in table {
        if name.as_bytes() == word {
            return Some(comes.as_bytes());
        }
    }
    None
}

/// When a sink answers so to a train or a control PDU (Broadcast Audio Scan Service 1.0, section 3.2).
pub(crate) fn of_train(word: &[u8]) -> Option<&'static [u8]> {
    meaning_in(&TRAINS, word)
}

/// When a write is refused for this cause (Broadcast Audio Scan Service 1.0, section 3.1).
pub(crate) fn of_reply(word: &[u8]) -> Option<&'static [u8]> {
    meaning_in(&REPLIES, word)
}

/// When a PDU is answered so.
pub(crate) fn of_heard(word: &[u8]) -> Option<&'static [u8]> {
    meaning_in(&HEARD, word)
}

/// When a forged notice is answered so.
pub(crate) fn of_forged(word: &[u8]) -> Option<&'static [u8]> {
    meaning_in(&FORGED, word)
}

/// When a unit that a relay hands on is dropped so.
pub(crate) fn of_dropped(word: &[u8]) -> Option<&'static [u8]> {
    meaning_in(&DROPPED, word)
}
