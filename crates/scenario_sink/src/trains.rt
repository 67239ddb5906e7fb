//! What synchronizes a sink to a train or to a BIG, what takes it from there, and what no sink sent.
ghost use Rattle.std.specs.Prelude.{◌≡◌, ◌≢◌, ◌≤◌, ◌^◌, Err, false, IfOk, OnOk};
ghost use Rattle.assistant_machine.specs.declared.fault.NoticeFault.TheVariants.{Memory as NoMemory};
ghost use Rattle.delegator_history.specs.Trains.{answer_of, outcome_by};
ghost use Rattle.scenario_text.specs.declared.step.Step.TheVariants as steps;
ghost use Rattle.sink_history.specs.History.{Source, given_train};
ghost use Rattle.sink_history.specs.Output.{snapshot_in};
ghost use Rattle.scenario_sink.specs.Answers.{is_followed};
ghost use Rattle.scenario_sink.specs.Making.{LineMakes};
ghost use Rattle.scenario_sink.specs.Origins.{IsFrom};
ghost use Rattle.scenario_sink.specs.SinkHistory.{SinkHistory, after_line};
ghost use Rattle.scenario_sink.specs.State.Stands.{IsSink};

use crate::on_link::take_notice;
use crate::origin::Origin;
use crate::sink::LinkedSink;
use announcement_train::Train;
use assistant_machine::{NoticeFault, NoticeTaken};
use bcast_base::{Memory, Octets};
use delegator_history::TrainHeard;
use sink_history::links_law;
use transcript_text::{Stop, put_control_heard, put_forged, put_idle, put_train, put_train_heard};

/// The answer to a train leaves the sink on it or on its group (Basic Audio Profile 1.0, section 6.5).
fn is_followed(heard: &TrainHeard) -> bool
    ensures { result ≡ is_followed heard.now }
{
    match *heard {
        TrainHeard::NoBroadcastId
        | TrainHeard::NotWanted
        | TrainHeard::OtherTrain
        | TrainHeard::AlreadyOnGroup => false,
        _ => true,
    }
}

/// A notice found no memory.
fn wants_memory(answer: &Result<NoticeTaken, NoticeFault>) -> bool
    ensures { result ≡ false → answer.now ≢ Err NoMemory }
{
    match answer {
        Ok(_) => false,
        Err(fault) => is_memory(*fault),
    }
}

/// The fault of a notice is want of memory.
fn is_memory(fault: NoticeFault) -> bool
    ensures { result ≡ false → fault ≢ NoMemory }
{
    match fault {
        NoticeFault::Memory => true,
        _ => false,
    }
}

impl LinkedSink {
    /// Hears a train of a source, at this time in µs: the data of its extended advertising, of its periodic advertising, and its
    /// additional controller data (Basic Audio Profile 1.0, sections 3.7.2 and 6.5).
    fn hear_train(
        &mut self,
        origin: Origin,
        ext: &[u8],
        adv: &[u8],
        acad: &[u8],
        now: u64,
    ) -> Result<TrainHeard, Memory>
        requires { now ≤ 2 ^ 61 }
        ensures answer { (source : Source) (history : SinkHistory) → IsFrom origin source → IsSink history self.old
            → IfOk result (λ heard. heard ≡ answer_of (outcome_by history.made.setup (snapshot_in history.made history.calls_made)
            (given_train source now ext.now adv.now acad.now))) }
        ensures lives { (source : Source) (history : SinkHistory) → IsFrom origin source → IsSink history self.old
            → OnOk result (IsSink (after_line source (steps.Train 0 now ext.now adv.now acad.now) history) self.new) }
    {
        let heard = self.delegator.train_keeping(
            &mut self.kept,
            origin.address_type,
            origin.sid,
            ext,
            adv,
            acad,
            now,
        )?;
        self.gather()?;
        if !is_followed(&heard) {
            return Ok(heard);
        }
        self.source = Some(origin.number);
        Ok(heard)
    }

    /// `train`: hears a train that is given by its octets, at this time in µs (Basic Audio Profile 1.0, sections 3.7.2 and 6.5). It is
    /// never refused.
    pub fn train(
        &mut self,
        sink: u8,
        origin: Origin,
        time: u64,
        ext: &[u8],
        adv: &[u8],
        acad: &[u8],
        text: &mut Octets,
    ) -> Result<(), Stop>
        requires { time ≤ 2 ^ 61 }
        ensures { (source : Source) (history : SinkHistory) → IsFrom origin source → IsSink history self.old
            → LineMakes source (steps.Train sink time ext.now adv.now acad.now) history text.old text.new self.new result }
    {
        let heard = self.hear_train(origin, ext, adv, acad, time)?;
        put_train_heard(text, sink, heard)?;
        Ok(())
    }

    /// `announce`: puts the train of a source at the end of the text, hands it to the sink, which has this number, and puts the
    /// answer behind it (Basic Audio Profile 1.0, sections 3.7.2 and 6.5). It is never refused.
    pub fn announce(
        &mut self,
        sink: u8,
        origin: Origin,
        train: &Train,
        text: &mut Octets,
    ) -> Result<(), Stop>
        requires { train.now.time ≤ 2 ^ 61 }
        ensures { (source : Source) (history : SinkHistory) → IsFrom origin source → source.announced ≡ train.now → IsSink history self.old
            → LineMakes source (steps.Announce sink) history text.old text.new self.new result }
    {
        put_train(text, sink, train)?;
        let ext = train.ext.as_slice();
        let adv = train.adv.as_slice();
        let acad = train.acad.as_slice();
        let heard = self.hear_train(origin, ext, adv, acad, train.time)?;
        put_train_heard(text, sink, heard)?;
        Ok(())
    }

    /// `lose`: the train is lost, and the sink is idle.
    pub(crate) fn lose(&mut self, sink: u8, text: &mut Octets) -> Result<(), Stop>
        ensures { (source : Source) (history : SinkHistory) → IsSink history self.old
            → LineMakes source (steps.Lose sink) history text.old text.new self.new result }
    {
        self.delegator.lost()?;
        self.gather()?;
        put_idle(text, sink)?;
        Ok(())
    }

    /// `control`: a PDU is heard as a control PDU (Core 5.2, volume 6 part B, section 2.6.3).
    pub(crate) fn control(&mut self, sink: u8, octets: &[u8], text: &mut Octets) -> Result<(), Stop>
        ensures { (source : Source) (history : SinkHistory) → IsSink history self.old
            → LineMakes source (steps.Control sink octets.now) history text.old text.new self.new result }
    {
        let heard = self.delegator.control(octets)?;
        self.gather()?;
        put_control_heard(text, sink, heard)?;
        Ok(())
    }

    /// `forge`: a notice that the sink didn't send comes over link 0, and the assistant takes it as any other (Broadcast Audio Scan
    /// Service 1.0, section 3.2).
    pub(crate) fn forge(
        &mut self,
        sink: u8,
        slot: u8,
        octets: &[u8],
        text: &mut Octets,
    ) -> Result<(), Stop>
        ensures { (source : Source) (history : SinkHistory) → IsSink history self.old
            → LineMakes source (steps.Forge sink slot octets.now) history text.old text.new self.new result }
    {
        links_law();
        let answer = take_notice(&mut self.links, 0, slot, octets);
        if wants_memory(&answer) {
            return Err(Stop::Memory);
        }
        put_forged(text, sink, answer)?;
        Ok(())
    }
}
