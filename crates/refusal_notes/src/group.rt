//! Which numbers of a group don't go together.
use bcast_base::{Memory, Octets};
use big_info::GroupFault;
use note_parts::{Numbers, put_note, quotient};
use scenario_words::Word;

/// How many events a payload of such a group may be sent ahead.
fn horizon(of: &Numbers) -> u64 {
    let places = quotient(of.nse, of.bn);
    of.pto.saturating_mul(places.saturating_sub(of.irc))
}

/// The PDUs that the units of an event take.
fn pdus(of: &Numbers) -> u64 {
    let units = quotient(of.interval(), of.sdu);
    let parts = quotient(
        of.max_sdu.saturating_add(of.max_pdu).saturating_sub(1),
        of.max_pdu,
    );
    units.saturating_mul(parts)
}

/// A text as a word.
fn say(text: &'static str) -> Word<'static> {
    Word::Text(text.as_bytes())
}

/// Puts the row of the group check that holds, with its numbers.
pub fn put_fault(
    rows: &mut Octets,
    fault: GroupFault,
    of: &Numbers,
    is_encrypted: bool,
) -> Result<(), Memory> {
    match fault {
        GroupFault::RangeIso => put_note(
            rows,
            &[
                say("RangeIso: ISO is from 4 to 3200 and NUMBIS is not 0; here ISO is"),
                Word::Number(of.iso),
                say("and NUMBIS"),
                Word::Number(of.num_bis),
            ],
        ),
        GroupFault::RangeSdu => put_note(
            rows,
            &[
                say("RangeSdu: SDU is 255 or more and MAXSDU is not 0; here SDU is"),
                Word::Number(of.sdu),
                say("and MAXSDU"),
                Word::Number(of.max_sdu),
            ],
        ),
        GroupFault::RangePdu => put_note(
            rows,
            &[
                say("RangePdu: MAXPDU is from 1 to 251; here it is"),
                Word::Number(of.max_pdu),
            ],
        ),
        GroupFault::Bn => put_note(rows, &[say("Bn: BN is not 0")]),
        GroupFault::NseNotMultiple => put_note(
            rows,
            &[
                say("NseNotMultiple: NSE is BN times a whole number that is not 0; here NSE is"),
                Word::Number(of.nse),
                say("and BN"),
                Word::Number(of.bn),
            ],
        ),
        GroupFault::Irc => put_note(
            rows,
            &[
                say("Irc: IRC is from 1 to NSE / BN ="),
                Word::Number(quotient(of.nse, of.bn)),
                say("and here it is"),
                Word::Number(of.irc),
            ],
        ),
        GroupFault::PhyNotSupported => put_note(
            rows,
            &[
                say("PhyNotSupported: PHY is 0 (LE 1M) or 1 (LE 2M); here it is"),
                Word::Number(of.phy),
            ],
        ),
        GroupFault::FramedPduSmall => put_note(
            rows,
            &[
                say("FramedPduSmall: MAXPDU of a framed group is 8 or more; here it is"),
                Word::Number(of.max_pdu),
            ],
        ),
        _ => put_time_fault(rows, fault, of, is_encrypted),
    }
}

/// Puts the rows that ask for times.
fn put_time_fault(
    rows: &mut Octets,
    fault: GroupFault,
    of: &Numbers,
    is_encrypted: bool,
) -> Result<(), Memory> {
    match fault {
        GroupFault::UnframedMultiple => put_note(
            rows,
            &[
                say("UnframedMultiple: the ISO interval of an unframed group, ISO x 1250 ="),
                Word::Number(of.interval()),
                say("us, is a multiple of SDU, here"),
                Word::Number(of.sdu),
                say("us"),
            ],
        ),
        GroupFault::UnframedBn => put_note(
            rows,
            &[
                say("UnframedBn: BN of an unframed group is k x m ="),
                Word::Number(pdus(of)),
                say("(k units an interval, m PDUs a unit), and here it is"),
                Word::Number(of.bn),
            ],
        ),
        GroupFault::Horizon => put_note(
            rows,
            &[
                say("Horizon: H = PTO x (NSE / BN - IRC) ="),
                Word::Number(horizon(of)),
                say("is at most 15, and 31 in version 2"),
            ],
        ),
        GroupFault::SubInterval => put_note(
            rows,
            &[
                say("SubInterval: SUB is the time of the longest PDU, here"),
                Word::Number(of.longest(is_encrypted)),
                say("us, and 150 us or more; here it is"),
                Word::Number(of.sub),
                say("us"),
            ],
        ),
        GroupFault::SyncDelay => put_note(
            rows,
            &[
                say(
                    "SyncDelay: (NUMBIS - 1) x SPACING + (NSE - 1) x SUB + the time of the longest PDU =",
                ),
                Word::Number(of.delay(is_encrypted)),
                say("us is at most the ISO interval, here"),
                Word::Number(of.interval()),
                say("us"),
            ],
        ),
        _ => put_note(rows, &[say("Encrypted: the group has a `cipher`")]),
    }
}
