ghost use Rattle.std.specs.Prelude.{◌≡◌, ◌++◌, OnOk};
ghost use Rattle.transcript_text.specs.SinkLines.{train_line};

use crate::put_line;
use announcement_train::Train;
use bcast_base::{Memory, Octets};
use scenario_words::Word;

/// Puts the line of what a source announces to a sink, with its time in µs.
///
/// After Memory a part of the line may stand at the end of the text.
pub fn put_train(text: &mut Octets, sink: u8, train: &Train) -> Result<(), Memory>
    ensures { OnOk result (text.new ≡ text.old ++ train_line sink train.now) }
{
    put_line(
        text,
        b"train",
        &[
            Word::Number(u64::from(sink)),
            Word::Number(train.time),
            Word::Octets(train.ext.as_slice()),
            Word::Octets(train.adv.as_slice()),
            Word::Octets(train.acad.as_slice()),
        ],
    )
}
