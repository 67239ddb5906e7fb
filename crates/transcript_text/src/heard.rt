ghost use Rattle.std.specs.Prelude.{◌≡◌, ◌∷◌, ◌++◌, [], OnOk, codes};
ghost use Rattle.delegator_history.specs.declared.train_heard.TrainHeard.TheVariants.{OnGroup};
ghost use Rattle.transcript_text.specs.Lines.{numbers};
ghost use Rattle.transcript_text.specs.SinkLines.{control_words, sink_line, train_words};

use crate::put_named;
use crate::streams::put_streams;
use bcast_base::{BisSet, Memory, Octets};
use delegator_history::{ControlHeard, TrainHeard};
use scenario_words::{Word, put_words};

/// Puts a line of a sink: a name, and behind it a number where there is one.
fn put_sink(text: &mut Octets, sink: u8, name: &[u8], number: Option<u64>) -> Result<(), Memory>
    ensures { OnOk result (text.new ≡ text.old ++ sink_line sink (name.now ∷ numbers number)) }
{
    put_named(text, b"sink", Word::Number(u64::from(sink)), name, number)
}

/// Puts the line of a sink that is idle again.
///
/// After Memory a part of the line may stand at the end of the text.
pub fn put_idle(text: &mut Octets, sink: u8) -> Result<(), Memory>
    ensures { OnOk result (text.new ≡ text.old ++ sink_line sink (codes "Idle" ∷ [])) }
{
    put_sink(text, sink, b"Idle", None)
}

/// Puts the line of a sink that is on a group, with the indices of its streams, rising.
#[tactic(auto, using(crate::proofs::Putting::line_put))]
fn put_on_group(text: &mut Octets, sink: u8, which: BisSet) -> Result<(), Memory>
    ensures { OnOk result (text.new ≡ text.old ++ sink_line sink (train_words (OnGroup which))) }
{
    put_words(
        text,
        b"sink",
        &[Word::Number(u64::from(sink)), Word::Text(b"OnGroup")],
    )?;
    put_streams(text, which)?;
    text.push(b'\n')
}

/// Puts the line of what a train that a sink heard brings: its name, behind BadGroup the number of the fault, and behind
/// OnGroup the indices of the streams that were taken, rising.
///
/// After Memory a part of the line may stand at the end of the text.
pub fn put_train_heard(text: &mut Octets, sink: u8, heard: TrainHeard) -> Result<(), Memory>
    ensures { OnOk result (text.new ≡ text.old ++ sink_line sink (train_words heard)) }
{
    match heard {
        TrainHeard::NoBroadcastId => put_sink(text, sink, b"NoBroadcastId", None),
        TrainHeard::NotWanted => put_sink(text, sink, b"NotWanted", None),
        TrainHeard::OtherTrain => put_sink(text, sink, b"OtherTrain", None),
        TrainHeard::AlreadyOnGroup => put_sink(text, sink, b"AlreadyOnGroup", None),
        TrainHeard::NoBase => put_sink(text, sink, b"NoBase", None),
        TrainHeard::BadBase => put_sink(text, sink, b"BadBase", None),
        TrainHeard::NoBigInfo => put_sink(text, sink, b"NoBigInfo", None),
        TrainHeard::BadBigInfo => put_sink(text, sink, b"BadBigInfo", None),
        TrainHeard::BadGroup(fault) => {
            put_sink(text, sink, b"BadGroup", Some(u64::from(fault.number())))
        }
        TrainHeard::NoneTaken => put_sink(text, sink, b"NoneTaken", None),
        TrainHeard::OnGroup(which) => put_on_group(text, sink, which),
    }
}

/// The name of what a control PDU brings, and the number behind it.
fn words_of(heard: ControlHeard) -> (&'static [u8], Option<u64>)
    ensures { control_words heard ≡ result.0.now ∷ numbers result.1 }
{
    match heard {
        ControlHeard::NotOnGroup => (b"NotOnGroup", None),
        ControlHeard::Malformed(fault) => (b"Malformed", Some(u64::from(fault.number()))),
        ControlHeard::NotControl => (b"NotControl", None),
        ControlHeard::UnknownOpcode => (b"UnknownOpcode", None),
        ControlHeard::ControlLength => (b"ControlLength", None),
        ControlHeard::MapIgnored => (b"MapIgnored", None),
        ControlHeard::Left => (b"Left", None),
    }
}

/// Puts the line of what a PDU that a sink heard as a control PDU brings; behind Malformed stands the number of the fault.
///
/// After Memory a part of the line may stand at the end of the text.
pub fn put_control_heard(text: &mut Octets, sink: u8, heard: ControlHeard) -> Result<(), Memory>
    ensures { OnOk result (text.new ≡ text.old ++ sink_line sink (control_words heard)) }
{
    let (name, number) = words_of(heard);
    put_sink(text, sink, name, number)
}
