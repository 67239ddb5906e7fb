//! The line of a step: its first word, and the words of its values.
ghost use Rattle.std.specs.Prelude.{◌≡◌, IfOk, Ok, Some};
ghost use Rattle.scenario_text.specs.Lines.{LineIs};
ghost use Rattle.scenario_text.specs.Steps.{read_of};
ghost use Rattle.scenario_text.specs.Written.{Fits, line_of, placed_line};

use crate::laws::a_step_has_a_line_where_it_fits;
use crate::values::put_values;
use bcast_base::{Memory, Octets};
use scenario_text::{LineTaker, Step};
use scenario_words::Value;
use std::alloc::Global;

/// The line of a step, which fits: its words with one space between each two, decimals, octets as lower-case hexadecimal
/// digits or `-` for none, and no end of the line. It reads as this step in version 2.
pub fn write_line(alloc: Global, step: &Step) -> Result<Octets, Memory>
    requires { Fits step.now }
    ensures written { IfOk result (λ line. line ≡ line_of step.now) }
    // The step is the one that the line says.
    ensures says { IfOk result (λ line. LineIs 2 step.now line) }
    // The line reads as the step.
    ensures reads { IfOk result (λ line. read_of 2 line ≡ Ok (Some step.now)) }
{
    a_step_has_a_line_where_it_fits();
    step.give_line(&Writing { alloc })
}

/// Writes a line, with one space between each two words.
#[derive(Drop)]
struct Writing {
    alloc: Global,
}

impl LineTaker for Writing {
    type Made = Result<Octets, Memory>;

    ghost makes = { λ _ line written. IfOk written (λ octets. octets ≡ placed_line line) };

    #[tactic(auto, using(crate::proofs::Putting::line_put))]
    fn take(&self, first: &[u8], values: &[Value<'_>]) -> Result<Octets, Memory> {
        let mut line = Octets::new(self.alloc);
        line.append(first)?;
        put_values(&mut line, values)?;
        Ok(line)
    }
}
