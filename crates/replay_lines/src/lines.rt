//! The loop over the lines of a text.
ghost use Rattle.std.specs.Prelude.{◌≡◌, ◌≢◌, ◌<◌, ◌+◌, ◌∷◌, ℕ, List, Option, None, Some};
ghost use Rattle.std.specs.Prelude.{Ok, length, map, true, IfNone, IfOk, OnOk, OnErr, IsSome};
ghost use Rattle.std.specs.Io.KnownBytes.{Keeps};
ghost use Rattle.bcast_base.specs.Counts.{Rose};
ghost use Rattle.bcast_io.specs.TextLines.{TextLine, lines_of, plain};
ghost use Rattle.bcast_io.specs.State.Reading.{Reading, lines_left};
ghost use Rattle.bcast_io.specs.State.Answering.{GoesOn};
ghost use Rattle.unit_outlets.specs.Account.{Account};
ghost use Rattle.source_machine.specs.Airs.{airs_of};
ghost use Rattle.scenario_history.specs.Lines.{steps_of};
ghost use Rattle.replay_steps.specs.LineMeets.{LinesStand};
ghost use Rattle.replay_steps.specs.Unassigned.{UnassignedSame};
ghost use Rattle.replay_steps.specs.Unassigned.{UnassignedRun};
ghost use Rattle.replay_lines.specs.Replayed.{Comes, ReadsAhead, ReadsAtMost, read_limit};
ghost use Rattle.replay_lines.specs.Ended.{Ended};
ghost use Rattle.replay_lines.specs.Heard.{as_told};
ghost use Rattle.replay_lines.specs.Listening.{EndsAt, EndsText, HasTold, LineTold, StepTold, Told};
ghost use Rattle.replay_lines.specs.Tellings.{Listened, StandsBefore, listened, tellings};
ghost use Rattle.replay_lines.specs.State.Between.{ReadTo, TextIs, NextIs, RunTo, Refuses, Puts, StepRuns, StepHeard, LineRuns};

use crate::ending::Ending;
use crate::listener::Listener;
use bcast_base::{Memory, Octets};
use bcast_io::{ByteSink, ByteSource, Failed, LineRead, LineReader, SinkFault};
use replay_steps::Machine;
use std::alloc::Global;
use transcript_text::{Refusal, Stop, put_refusal};
use unit_outlets::Outlet;

/// Runs the lines of the source to their end, to a refusal or to a fault, with a listener that is told of each.
pub(crate) fn run_lines<S: ByteSource, K: ByteSink, L: Listener<K>>(
    alloc: Global,
    source: &mut S,
    sink: &mut K,
    listener: &mut L,
    outlets: &mut Vec<Box<dyn Outlet>>,
) -> Ending
    ensures ended { Ended airs_of (as_told L.may_fail result) (map account outlets.old.items) (map account outlets.new.items)
        (S.left source.old) (S.left source.new) (K.contents sink.old) (K.contents sink.new) }
    ensures unassigned { (text : List ℕ) → S.left source.old ≡ Some text
        → UnassignedRun (map account outlets.old.items) (lines_of true text) outlets.old.items outlets.new.items }
    ensures told { Told L.row_of (S.left source.old) (S.left source.new) (listened L.told L.rows listener.old sink.old)
        (listened L.told L.rows listener.new sink.new) result }
    ensures within { ReadsAtMost (S.left source.old) (S.left source.new) read_limit }
    ensures read_fault { result ≡ Ending.ReadFault → Rose (S.faults source.old) (S.faults source.new) }
    ensures no_read_fault { result ≢ Ending.ReadFault → S.faults source.new ≡ S.faults source.old }
    ensures write_fault { result ≡ Ending.WriteFault → Rose (K.faults sink.old) (K.faults sink.new) }
    ensures no_write_fault { result ≢ Ending.WriteFault → K.faults sink.new ≡ K.faults sink.old }
{
    let Ok(mut reader) = LineReader::new(alloc) else {
        return Ending::Memory;
    };
    let Ok(mut machine) = Machine::new(alloc) else {
        return Ending::Memory;
    };
    let mut text = Octets::new(alloc);
    let mut number: u64 = 1;
    'lines: loop {
        match run_line(
            number,
            &mut reader,
            &mut machine,
            &mut text,
            source,
            sink,
            listener,
            outlets,
        ) {
            None => number += 1,
            Some(ending) => return ending,
        }
    }
}

/// Reads the next line, of this number, runs it and writes what it brings: an ending where it is the last.
fn run_line<S: ByteSource, K: ByteSink, L: Listener<K>>(
    number: u64,
    reader: &mut LineReader,
    machine: &mut Machine,
    text: &mut Octets,
    source: &mut S,
    sink: &mut K,
    listener: &mut L,
    outlets: &mut Vec<Box<dyn Outlet>>,
) -> Option<Ending>
    requires before { StandsBefore number machine.old }
    ensures runs { (starts : List Account) (lines : List TextLine) (left kept : Option (List ℕ)) → number ≡ length lines + 1
        → ReadTo left (S.left source.old) lines reader.old
        → RunTo starts lines kept (K.contents sink.old) machine.old (map account outlets.old.items)
        → LineRuns L.may_fail starts lines left (S.left source.new) kept (K.contents sink.new) reader.new machine.new
        (map account outlets.new.items) result }
    ensures unassigned { (starts : List Account) (lines : List TextLine) (accounts : List Account)
        → LinesStand starts lines machine.old accounts
        → UnassignedSame (steps_of airs_of lines) outlets.old.items outlets.new.items }
    ensures told { (lines : List TextLine) (left : Option (List ℕ)) (start : Listened) → number ≡ length lines + 1
        → ReadTo left (S.left source.old) lines reader.old
        → HasTold L.row_of start (listened L.told L.rows listener.old sink.old) (tellings lines)
        → LineTold L.row_of left (S.left source.new) start (listened L.told L.rows listener.new sink.new) lines reader.new result }
    ensures within { (left : Option (List ℕ)) (lines : List TextLine) → ReadTo left (S.left source.old) lines reader.old
        → ReadsAtMost left (S.left source.new) read_limit }
    ensures nearer { IfNone result (lines_left reader.new < lines_left reader.old) }
    ensures read_fault { result ≡ Some Ending.ReadFault → Rose (S.faults source.old) (S.faults source.new) }
    ensures no_read_fault { result ≢ Some Ending.ReadFault → S.faults source.new ≡ S.faults source.old }
    ensures write_fault { result ≡ Some Ending.WriteFault → Rose (K.faults sink.old) (K.faults sink.new) }
    ensures no_write_fault { result ≢ Some Ending.WriteFault → K.faults sink.new ≡ K.faults sink.old }
{
    match read_next(reader, source) {
        Ok(LineRead::Line) => hear_step(
            number,
            reader.line(),
            machine,
            text,
            sink,
            listener,
            outlets,
        ),
        Ok(read) => Some(end_reading(number, read, machine, text, listener, sink)),
        Err(Failed) => Some(Ending::ReadFault),
    }
}

/// Ends the run where no further line was lent: the text ends there, or it or its next line is too long.
#[inline(never)]
fn end_reading<K: ByteSink, L: Listener<K>>(
    number: u64,
    read: LineRead,
    machine: &Machine,
    text: &mut Octets,
    listener: &L,
    sink: &mut K,
) -> Ending
    requires no_line { read ≢ LineRead.Line }
    ensures ends { (starts : List Account) (lines : List TextLine) (left left' kept : Option (List ℕ)) (accounts : List Account)
        (reader : Reading) → number ≡ length lines + 1
        → NextIs left left' lines reader (Ok read) → RunTo starts lines kept (K.contents sink.old) machine.now accounts
        → Ended airs_of result starts accounts left left' kept (K.contents sink.new) }
    ensures told { (lines : List TextLine) (left left' : Option (List ℕ)) (start : Listened) (reader : Reading) → number ≡ length lines + 1
        → NextIs left left' lines reader (Ok read)
        → HasTold L.row_of start (listened L.told L.rows listener.now sink.old) (tellings lines)
        → Told L.row_of left left' start (listened L.told L.rows listener.now sink.new) result }
    ensures never_read_fault { result ≢ Ending.ReadFault }
    ensures write_fault { result ≡ Ending.WriteFault → Rose (K.faults sink.old) (K.faults sink.new) }
    ensures no_write_fault { result ≢ Ending.WriteFault → K.faults sink.new ≡ K.faults sink.old }
{
    match read {
        LineRead::TextTooLong => refuse(number, Refusal::TextTooLong, text, listener, sink),
        LineRead::LineTooLong => refuse(number, Refusal::LineTooLong, text, listener, sink),
        _ => end_text(number, machine, text, listener, sink),
    }
}

/// Reads the next line.
fn read_next<S: ByteSource>(reader: &mut LineReader, source: &mut S) -> Result<LineRead, Failed>
    ensures next { (left : Option (List ℕ)) (lines : List TextLine) → ReadTo left (S.left source.old) lines reader.old
        → NextIs left (S.left source.new) lines reader.new result }
    ensures within { (left : Option (List ℕ)) (lines : List TextLine) → ReadTo left (S.left source.old) lines reader.old
        → ReadsAtMost left (S.left source.new) read_limit }
    ensures line { result ≡ Ok LineRead.Line → IsSome reader.new.line }
    ensures nearer { IfOk result (λ read. GoesOn read reader.old reader.new) }
    ensures cause { OnErr result (Rose (S.faults source.old) (S.faults source.new)) }
    ensures none_failed { OnOk result (S.faults source.new ≡ S.faults source.old) }
{
    reader.next_line(source)
}

/// The end of the text, which may come only behind `end`.
#[inline(never)]
fn end_text<K: ByteSink, L: Listener<K>>(
    number: u64,
    machine: &Machine,
    text: &mut Octets,
    listener: &L,
    sink: &mut K,
) -> Ending
    ensures ends { (starts : List Account) (lines : List TextLine) (left left' kept : Option (List ℕ)) (accounts : List Account)
        → number ≡ length lines + 1
        → TextIs left left' lines true → RunTo starts lines kept (K.contents sink.old) machine.now accounts
        → Ended airs_of result starts accounts left left' kept (K.contents sink.new) }
    ensures behind { EndsText result }
    ensures rows { Keeps (L.rows sink.old) (L.rows sink.new) }
    ensures never_read_fault { result ≢ Ending.ReadFault }
    ensures write_fault { result ≡ Ending.WriteFault → Rose (K.faults sink.old) (K.faults sink.new) }
    ensures no_write_fault { result ≢ Ending.WriteFault → K.faults sink.new ≡ K.faults sink.old }
{
    if machine.is_over() {
        return Ending::Done;
    }
    refuse(number, Refusal::NoEnd, text, listener, sink)
}

/// Writes the line of a refusal.
#[inline(never)]
fn refuse<K: ByteSink, L: Listener<K>>(
    number: u64,
    reason: Refusal,
    text: &mut Octets,
    listener: &L,
    sink: &mut K,
) -> Ending
    ensures refuses { Refuses number reason (K.contents sink.old) (K.contents sink.new) result }
    ensures at { EndsAt number (Some result) }
    ensures rows { Keeps (L.rows sink.old) (L.rows sink.new) }
    ensures never_read_fault { result ≢ Ending.ReadFault }
    ensures write_fault { result ≡ Ending.WriteFault → Rose (K.faults sink.old) (K.faults sink.new) }
    ensures no_write_fault { result ≢ Ending.WriteFault → K.faults sink.new ≡ K.faults sink.old }
{
    text.clear();
    match put_refusal(text, number, reason) {
        Err(Memory) => Ending::Memory,
        Ok(()) => match put(text, listener, sink) {
            Some(fault) => fault,
            None => Ending::Refused {
                line: number,
                reason,
            },
        },
    }
}

/// Runs a line, and tells the listener of it before and after.
#[inline(always)]
fn hear_step<K: ByteSink, L: Listener<K>>(
    number: u64,
    line: &[u8],
    machine: &mut Machine,
    text: &mut Octets,
    sink: &mut K,
    listener: &mut L,
    outlets: &mut Vec<Box<dyn Outlet>>,
) -> Option<Ending>
    requires before { StandsBefore number machine.old }
    ensures runs { (starts : List Account) (lines : List TextLine) (left left' kept : Option (List ℕ)) → number ≡ length lines + 1
        → Comes left left' lines (plain line.now) → ReadsAhead left left' number
        → RunTo starts lines kept (K.contents sink.old) machine.old (map account outlets.old.items)
        → StepHeard L.may_fail starts (plain line.now ∷ lines) left left' kept (K.contents sink.new) machine.new
        (map account outlets.new.items) result }
    ensures told { (lines : List TextLine) (left left' : Option (List ℕ)) (start : Listened) → number ≡ length lines + 1
        → Comes left left' lines (plain line.now)
        → HasTold L.row_of start (listened L.told L.rows listener.old sink.old) (tellings lines)
        → StepTold L.row_of left left' start (listened L.told L.rows listener.new sink.new) (plain line.now ∷ lines) result }
    ensures unassigned { (starts : List Account) (lines : List TextLine) (accounts : List Account)
        → LinesStand starts lines machine.old accounts
        → UnassignedSame (steps_of airs_of lines) outlets.old.items outlets.new.items }
    ensures never_read_fault { result ≢ Some Ending.ReadFault }
    ensures write_fault { result ≡ Some Ending.WriteFault → Rose (K.faults sink.old) (K.faults sink.new) }
    ensures no_write_fault { result ≢ Some Ending.WriteFault → K.faults sink.new ≡ K.faults sink.old }
{
    match listener.begin_line(number, line, machine, sink) {
        Ok(()) => {
            let ended = run_step(number, line, machine, text, listener, sink, outlets);
            listener.end_line(line, machine, text, ended);
            ended
        }
        Err(SinkFault::Failed) => Some(Ending::WriteFault),
        Err(SinkFault::Memory) => Some(Ending::Memory),
    }
}

/// Runs a line, and writes what it brings.
#[inline(always)]
fn run_step<K: ByteSink, L: Listener<K>>(
    number: u64,
    line: &[u8],
    machine: &mut Machine,
    text: &mut Octets,
    listener: &L,
    sink: &mut K,
    outlets: &mut Vec<Box<dyn Outlet>>,
) -> Option<Ending>
    ensures runs { (starts : List Account) (lines : List TextLine) (left left' kept : Option (List ℕ)) → number ≡ length lines + 1
        → Comes left left' lines (plain line.now) → ReadsAhead left left' number
        → RunTo starts lines kept (K.contents sink.old) machine.old (map account outlets.old.items)
        → StepRuns starts (plain line.now ∷ lines) left left' kept (K.contents sink.new) machine.new
        (map account outlets.new.items) result }
    ensures at { EndsAt number result }
    ensures rows { Keeps (L.rows sink.old) (L.rows sink.new) }
    ensures unassigned { (starts : List Account) (lines : List TextLine) (accounts : List Account)
        → LinesStand starts lines machine.old accounts
        → UnassignedSame (steps_of airs_of lines) outlets.old.items outlets.new.items }
    ensures never_read_fault { result ≢ Some Ending.ReadFault }
    ensures write_fault { result ≡ Some Ending.WriteFault → Rose (K.faults sink.old) (K.faults sink.new) }
    ensures no_write_fault { result ≢ Some Ending.WriteFault → K.faults sink.new ≡ K.faults sink.old }
{
    text.clear();
    match machine.line(line, outlets, text) {
        Ok(()) => put(text, listener, sink),
        Err(Stop::Refused(reason)) => Some(refuse(number, reason, text, listener, sink)),
        Err(Stop::OutletFault) => match put(text, listener, sink) {
            Some(fault) => Some(fault),
            None => Some(Ending::OutletFault),
        },
        Err(Stop::Memory) => Some(Ending::Memory),
    }
}

/// Writes a text: an ending where it was not written whole.
fn put<K: ByteSink, L: Listener<K>>(text: &Octets, listener: &L, sink: &mut K) -> Option<Ending>
    ensures puts { Puts text.now (K.contents sink.old) (K.contents sink.new) result }
    ensures rows { Keeps (L.rows sink.old) (L.rows sink.new) }
    ensures never_read_fault { result ≢ Some Ending.ReadFault }
    ensures write_fault { result ≡ Some Ending.WriteFault → Rose (K.faults sink.old) (K.faults sink.new) }
    ensures no_write_fault { result ≢ Some Ending.WriteFault → K.faults sink.new ≡ K.faults sink.old }
{
    match listener.write(text.as_slice(), sink) {
        Ok(()) => None,
        Err(SinkFault::Failed) => Some(Ending::WriteFault),
        Err(SinkFault::Memory) => Some(Ending::Memory),
    }
}
