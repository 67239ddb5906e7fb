//! What holds of the line of every step, whatever writes it.
ghost use Rattle.std.specs.Prelude.{◌≡◌, ◌↔◌, ℕ, List, Ok, Some};
ghost use Rattle.scenario_text.specs.declared.step.Step.{Step};
ghost use Rattle.scenario_text.specs.Lines.{LineIs};
ghost use Rattle.scenario_text.specs.Steps.{read_of};
ghost use Rattle.scenario_text.specs.Written.{Fits, line_of};

use scenario_text::a_line_says_one_step;

/// A step fits exactly where some line of version 2 says it. Then its own line says it, and reads as it, and no two steps have
/// a line in common.
pub fn a_step_has_a_line_where_it_fits()
    ensures exact { (step : Step) → Fits step ↔ ((line : List ℕ) × LineIs 2 step line) }
    ensures line { (step : Step) → Fits step → LineIs 2 step (line_of step) }
    ensures read { (step : Step) → Fits step → read_of 2 (line_of step) ≡ Ok (Some step) }
    ensures one { (this that : Step) (line : List ℕ) → LineIs 2 this line → LineIs 2 that line → this ≡ that }
{
    a_line_says_one_step()
}
