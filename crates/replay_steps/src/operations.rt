//! The lines of operations, which are read without a step.
ghost use Rattle.std.specs.Prelude.{◌≡◌, ◌≤◌, ℕ, true, Ok, Some, IfOk, IfSome};
ghost use Rattle.bass_operations.specs.Layout.{encoding};
ghost use Rattle.bass_operations.specs.declared.operation.Operation.{Operation};
ghost use Rattle.scenario_text.specs.Steps.{read_of};
ghost use Rattle.recurring_lines.specs.Operations.{operation_step};
ghost use Rattle.replay_steps.specs.Operations.{HasLine};

use bcast_base::Memory;
use recurring_lines::{OperationRoom, read_operation};
use std::alloc::Global;

/// Reads a line that says an operation of a source, as `read_operation` does.
pub(crate) fn read_of_source(
    alloc: Global,
    room: &mut OperationRoom,
    line: &[u8],
) -> Result<Option<u8>, Memory>
    ensures sink { IfOk result (λ found. IfSome found (λ sink. sink ≤ 7)) }
    ensures reads { IfOk result (λ found. IfSome found (λ sink. (op : Operation) × HasLine op
        × ((version : ℕ) → read_of version line.now ≡ Ok (Some (operation_step sink op))) × (room.new ≡ encoding op))) }
{
    let Some(sink) = read_operation(alloc, room, line)? else {
        return Ok(None);
    };
    if !is_of_source(room.as_slice()) {
        return Ok(None);
    }
    Ok(Some(sink))
}

/// Whether the octets of an operation are those of one that names a source: the opcodes 0 and 1 are those of a scan.
fn is_of_source(octets: &[u8]) -> bool
    ensures { (op : Operation) → octets.now ≡ encoding op → result ≡ true → HasLine op }
{
    if octets.is_empty() {
        return false;
    }
    if octets[0] < 2 {
        return false;
    }
    true
}
