ghost use Rattle.std.specs.Prelude.{◌≡◌, ℕ, Bool, true, false, List, [], ◌∷◌, Option, MatchResult, IfErr, OnErr, OnOk};
ghost use Rattle.std.specs.Io.KnownBytes.{Appends, Keeps};
ghost use Rattle.bcast_io.specs.Causes.{SinkCause};
ghost use Rattle.bcast_io.specs.Writing.{AppendsPrefix, AppendsShort};
ghost use Rattle.replay_lines.specs.Tellings.{StandsBefore, Telling, Tells, begun, was_run};

use crate::ending::Ending;
use bcast_base::Octets;
use bcast_io::{ByteSink, SinkFault, write_whole};
use replay_steps::Machine;

/// What goes along with the run of a text: it is told of each line before and after it is run, writes what the line brings, and may
/// put octets into the sink that the sink doesn't count to the transcript.
pub trait Listener<K: ByteSink> {
    // Whether it may fail.
    ghost may_fail: { Bool };

    // What it was told so far, the newest first, where it counts that.
    ghost told: { Self → Option (List Telling) };

    // The row that it puts into the sink for a line with its number.
    ghost row_of: { ℕ → List ℕ → List ℕ };

    // The rows of lines that the sink has, where it tells them.
    ghost rows: { K → Option (List ℕ) };

    /// A line, with its number from 1, that will be run on this machine, which stands for the lines before it. Its row is put into the sink; what the sink is seen to have
    /// taken of the transcript stays the same. The faults are those of a write to the sink; one of either ends the run before the
    /// line, and of the row a prefix was put.
    fn begin_line(
        &mut self,
        number: u64,
        line: &[u8],
        machine: &Machine,
        sink: &mut K,
    ) -> Result<(), SinkFault>
        requires before { StandsBefore number machine.now }
        ensures told { Tells (told self.old) (told self.new) (begun number line.now ∷ []) }
        ensures shown { MatchResult result (λ _. Appends (rows sink.old) (rows sink.new) (row_of number line.now))
            (λ _. AppendsPrefix (rows sink.old) (rows sink.new) (row_of number line.now)) }
        ensures kept { Keeps (K.contents sink.old) (K.contents sink.new) }
        ensures ok { OnOk result (K.faults sink.new ≡ K.faults sink.old) }
        ensures cause { IfErr result (SinkCause (K.faults sink.old) (K.faults sink.new)) }
        ensures allowed { OnErr result (may_fail ≡ true) };

    /// Writes octets of the transcript. After a refusal a prefix of them was written, and not all. The rows of lines stay.
    fn write(&self, octets: &[u8], sink: &mut K) -> Result<(), SinkFault>
        ensures ok { OnOk result (Appends (K.contents sink.old) (K.contents sink.new) octets.now) }
        ensures short { OnErr result (AppendsShort (K.contents sink.old) (K.contents sink.new) octets.now) }
        ensures rows { Keeps (rows sink.old) (rows sink.new) }
        ensures none_failed { OnOk result (K.faults sink.new ≡ K.faults sink.old) }
        ensures cause { IfErr result (SinkCause (K.faults sink.old) (K.faults sink.new)) };

    /// The same line once it was run and what it brings was written, which is this text: the machine that it left, and how the
    /// run ended where this line is the last.
    fn end_line(&mut self, line: &[u8], machine: &Machine, text: &Octets, ended: Option<Ending>)
        ensures told { Tells (told self.old) (told self.new) (was_run line.now ∷ []) };
}

/// A listener that does nothing.
#[derive(Drop)]
pub(crate) struct Silent;

impl<K: ByteSink> Listener<K> for Silent {
    ghost use Rattle.std.specs.Prelude.{false, [], None};

    ghost may_fail = { false };

    ghost told = { λ _. None };

    ghost row_of = { λ _ _. [] };

    ghost rows = { λ _. None };

    fn begin_line(
        &mut self,
        _number: u64,
        _line: &[u8],
        _machine: &Machine,
        _sink: &mut K,
    ) -> Result<(), SinkFault> {
        Ok(())
    }

    #[inline(always)]
    fn write(&self, octets: &[u8], sink: &mut K) -> Result<(), SinkFault> {
        // Most lines print nothing.
        if octets.is_empty() {
            return Ok(());
        }
        write_whole(sink, octets)
    }

    fn end_line(
        &mut self,
        _line: &[u8],
        _machine: &Machine,
        _text: &Octets,
        _ended: Option<Ending>,
    ) {}
}
