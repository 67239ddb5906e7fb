//! The units that were left out, in the transcript.
ghost use Rattle.std.specs.Prelude.{◌≡◌, ◌++◌, OnOk};
ghost use Rattle.scenario_history.specs.Output.{stale_lines};

use bcast_base::{Memory, Octets};
use source_machine::Stale;
use transcript_text::put_stale;

/// Puts the lines of units that were left out, in order.
pub(crate) fn put_stale_units(text: &mut Octets, units: &[Stale]) -> Result<(), Memory>
    ensures { OnOk result (text.new ≡ text.old ++ stale_lines units.now) }
{
    'units: for unit in units {
        put_stale(text, unit.bis.get(), unit.time)?;
    }
    Ok(())
}
