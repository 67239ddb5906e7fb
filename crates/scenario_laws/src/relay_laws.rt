//! What a sink hands up of a stream that has a relay.
ghost use Rattle.std.specs.Prelude.{List};
ghost use Rattle.unit_outlets.specs.Account.{Account};
ghost use Rattle.scenario_laws.specs.OrderRows.{IsRelayWorked};
ghost use Rattle.scenario_laws.specs.Relayed.{RelayLinesLaw, RelayedUnitsLaw};

use crate::{relay_law, steps_keep_order};
use scenario_text::a_line_says_one_step;

/// The relay law, of a scenario of which no line was refused: where one is `relay N B B2`, what source 1 accepted on B2 is what sink N
/// handed up of B, valid, at closes of source 0 behind this line and before its `drop`, without exactly the units that have a
/// `dropped` line, in order and with octets and times.
pub fn relay_lines_law()
    ensures { (starts : List Account) → RelayLinesLaw starts }
{
    a_line_says_one_step();
    relay_law();
}

/// The relayed units law, of a scenario of which no line was refused and one is `relay N B B2`: where no PDU was injected into sink N
/// and no train was given to it by its octets, from when it was made to the last close of source 0 before its `drop`, nor into sink M
/// since it was made, what M handed up of stream B2 of source 1 is, in order, of units that source 0 accepted on B and that N handed
/// up, at most one of each, a valid one has the unit's octets, and each is rendered at T + Delay + SDU_Interval + ISO +
/// Presentation_Delay (Core 5.2, volume 6 part G, section 3.2), the last four of source 1, where T is the time at which N handed the
/// unit up.
pub fn relayed_units_law()
    ensures { (starts : List Account) → RelayedUnitsLaw starts }
{
    a_line_says_one_step();
    relay_law();
    steps_keep_order();
}

/// Two units with the same octets that a sink hands up to its relay, by hand: a sink of source 1 may show both in order, and neither
/// of them twice. And three histories of a sink: what is injected counts in the history that has the relay.
pub fn relayed_units_are_worked()
    ensures { IsRelayWorked }
{}
