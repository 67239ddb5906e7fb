//! The lines of a first word and a sink, read without a whole step.
ghost use Rattle.std.specs.Prelude.{◌≡◌, ◌≤◌, ◌+◌, ◌∷◌, ◌++◌, ℕ, [], Ok, Some, IfSome};
ghost use Rattle.scenario_words.specs.Joined.{space};
ghost use Rattle.scenario_text.specs.Ranges.{IsInRange};
ghost use Rattle.scenario_text.specs.Steps.{read_of};
ghost use Rattle.recurring_lines.specs.SinkLines.{sink_line_step};

use scenario_words::is_word;

/// What a line says of a sink, that names the sink alone.
#[derive(Clone, Copy)]
pub enum SinkLine {
    /// The sink hears the train of the chosen source.
    Announce { sink: u8 },
    /// The sink serves the first write that waits on its first link.
    Serve { sink: u8 },
    /// The first notice that waits on the first link of the sink is delivered.
    Tell { sink: u8 },
    /// The first link of the sink is drained.
    Drain { sink: u8 },
    /// The sink loses its train.
    Lose { sink: u8 },
}

/// Reads a line that says `announce`, `serve`, `tell`, `drain` or `lose`, a space and the digit of a sink, which are the same in each
/// version. For any other line, and for one that doesn't fit, the answer is None.
#[inline(always)]
pub fn read_sink_line(line: &[u8]) -> Option<SinkLine>
    ensures in_range { IfSome result (λ said. IsInRange (sink_line_step said)) }
    ensures reads { IfSome result (λ said. (version : ℕ) → read_of version line.now ≡ Ok (Some (sink_line_step said))) }
{
    if line.len() < 6 {
        return None;
    }
    let end = line.len() - 2;
    let digit = line[end + 1];
    if line[end] != b' ' {
        return None;
    }
    if digit < b'0' {
        return None;
    }
    if digit > b'7' {
        return None;
    }
    of_name(&line[..end], digit - b'0')
}

/// What it says, by its first word and its sink.
fn of_name(name: &[u8], sink: u8) -> Option<SinkLine>
    requires { sink ≤ 7 }
    ensures { IfSome result (λ said. (version : ℕ)
        → read_of version (name.now ++ space ∷ (48 + sink) ∷ []) ≡ Ok (Some (sink_line_step said))) }
{
    if is_word(name, b"serve") {
        return Some(SinkLine::Serve { sink });
    }
    if is_word(name, b"tell") {
        return Some(SinkLine::Tell { sink });
    }
    if is_word(name, b"drain") {
        return Some(SinkLine::Drain { sink });
    }
    if is_word(name, b"lose") {
        return Some(SinkLine::Lose { sink });
    }
    if is_word(name, b"announce") {
        return Some(SinkLine::Announce { sink });
    }
    None
}
