ghost use Rattle.std.specs.Prelude.{◌≡◌, ◌++◌, OnOk};
ghost use Rattle.transcript_text.specs.SinkLines.{bad_number, forged_line};

use crate::put_named;
use assistant_machine::{NoticeFault, NoticeTaken};
use bcast_base::{Memory, Octets};
use receive_state::StateFault;
use scenario_words::Word;

/// The number of what is wrong with the octets of a value, from 1 to 3.
fn number_of(fault: StateFault) -> u8
    ensures { result ≡ bad_number fault }
{
    match fault {
        StateFault::Short { .. } => 1,
        StateFault::Rfu { .. } => 2,
        StateFault::Trailing { .. } => 3,
        StateFault::Memory => 0,
    }
}

/// Puts the line of what the assistant on link 0 of a sink made of a notice that no sink sent; behind BadNotice stands the
/// number of what is wrong with its octets.
///
/// Where the answer is want of memory, it is Memory. After Memory a part of the line may stand at the end of the text.
pub fn put_forged(
    text: &mut Octets,
    sink: u8,
    answer: Result<NoticeTaken, NoticeFault>,
) -> Result<(), Memory>
    ensures { OnOk result (text.new ≡ text.old ++ forged_line sink answer) }
{
    let sink = Word::Number(u64::from(sink));
    match answer {
        Ok(_) => put_named(text, b"forged", sink, b"ok", None),
        Err(NoticeFault::NoSuchSlot) => put_named(text, b"forged", sink, b"NoSuchSlot", None),
        Err(NoticeFault::BadNotice(fault)) => put_named(
            text,
            b"forged",
            sink,
            b"BadNotice",
            Some(u64::from(number_of(fault))),
        ),
        Err(NoticeFault::Memory) => Err(Memory),
    }
}
