//! What other sinks and another source leave of a sink.
ghost use Rattle.std.specs.Prelude.{◌≡◌, List};
ghost use Rattle.unit_outlets.specs.Account.{Account};
ghost use Rattle.scenario_laws.specs.Isolation.{IsolationLaw};
ghost use Rattle.scenario_laws.specs.Only.{only};
ghost use Rattle.scenario_laws.specs.IsolationRows.{left_of_both, two_sources};

/// The isolation law over the lines of any text of which none is refused and none is `relay`: where no step under the other
/// source synchronizes a sink to a train or a BIG, all that the sink does is as if the other sinks and the lines of the other source
/// were left out: the units that it hands up, valid and lost, with their times (Core 5.2, volume 6 part G, sections 2.1, 2.2 and 3.2),
/// its place, its receive states, its replies, and the writes, notices, reads and views on each of its links (Broadcast Audio
/// Scan Service 1.0, section 3.2), and what the lines that are left print of them. It holds after each step.
pub fn isolation_law()
    ensures { (starts : List Account) → IsolationLaw starts }
{}

/// A scenario of two sources and two sinks, and what is left of it for sink 0 and source 0, by hand.
pub fn a_scenario_is_left()
    ensures { only 0 0 two_sources ≡ left_of_both }
{}
