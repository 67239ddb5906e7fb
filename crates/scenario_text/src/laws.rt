//! What holds of every line, whatever reads it.
ghost use Rattle.std.specs.Prelude.{◌≡◌, ◌+◌, ◌↔◌, ℕ, List, length, Some, None, Ok, Err};
ghost use Rattle.bass_operations.specs.Layout.{encoding};
ghost use Rattle.bass_operations.specs.declared.operation.AddSource.{AddSource};
ghost use Rattle.bass_operations.specs.declared.operation.ModifySource.{ModifySource};
ghost use Rattle.bass_operations.specs.declared.operation.Operation.TheVariants.{Add, Modify};
ghost use Rattle.scenario_words.specs.Places.{wishes_octets};
ghost use Rattle.scenario_text.specs.Table.{before_add, before_modify};
ghost use Rattle.scenario_words.specs.declared.fault.LineFault.TheVariants.{BadLine};
ghost use Rattle.scenario_text.specs.Ranges.{IsInRange};
ghost use Rattle.scenario_text.specs.Lines.{LineIs, IsBlank};
ghost use Rattle.scenario_text.specs.Steps.{read_of};
ghost use Rattle.scenario_text.specs.Misfits.{IsMisfit};
ghost use Rattle.scenario_text.specs.declared.step.Step.{Step};

/// A line reads as the step that it says and as no other, within its ranges; it reads as none exactly where it is empty
/// or a comment. The number of a fault is that of the words that fit, and there is one such number.
pub fn a_line_says_one_step()
    ensures says { (version : ℕ) (line : List ℕ) (step : Step) → LineIs version step line ↔ (read_of version line ≡ Ok (Some step)) }
    ensures one { (version : ℕ) (line : List ℕ) (this that : Step) → LineIs version this line → LineIs version that line → this ≡ that }
    ensures in_range { (version : ℕ) (line : List ℕ) (step : Step) → read_of version line ≡ Ok (Some step) → IsInRange step }
    ensures misfit { (version k : ℕ) (line : List ℕ) → read_of version line ≡ Err (BadLine k) → IsMisfit version line k }
    ensures number { (version j k : ℕ) (line : List ℕ) → IsMisfit version line j → IsMisfit version line k → j ≡ k }
    ensures blank { (version : ℕ) (line : List ℕ) → (read_of version line ≡ Ok None) ↔ IsBlank line }
{}

/// An operation has the octets before its subgroups and those of the subgroups, so that an `add` or a `modify` passes its
/// place exactly where its operation passes 512 octets.
pub fn an_operation_has_so_many_octets()
    ensures add { (op : AddSource) → length op.address ≡ 6 → length op.broadcast_id ≡ 3
        → length (encoding (Add op)) ≡ before_add + wishes_octets op.wishes }
    ensures modify { (op : ModifySource) → length (encoding (Modify op)) ≡ before_modify + wishes_octets op.wishes }
{}
