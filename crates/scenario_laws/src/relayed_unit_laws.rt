//! What holds of every scenario with relays.
ghost use Rattle.std.specs.Prelude.{ℕ, List};
ghost use Rattle.source_machine.specs.Airs.{Airs};
ghost use Rattle.scenario_text.specs.declared.step.Step.{Step};
ghost use Rattle.scenario_history.specs.RelayedUnits.{with_relayed_units};
ghost use Rattle.scenario_laws.specs.RelayedUnits.Laws.{DroppedLaw, HappensLegally, IsLeft, NoneRelayed, NothingElse, PassesAtOnce, PrintsUnits};
ghost use Rattle.scenario_laws.specs.RelayedUnits.Laws.{RelayLaw};

/// Relayed units leave all but source 1 as it is: the scenario, the chosen source, source 0, each sink with its relay, and what was
/// handed up. They leave the open event of source 1, too.
pub fn relayed_units_leave_all_else()
    ensures { (airs : Airs) (steps : List Step) (step : Step) → IsLeft airs (with_relayed_units airs steps step) steps }
{}

/// What source 1 accepts on a stream as an event of source 0 is closed is what relays offer to it, in order, with octets and times,
/// without exactly the units that are dropped.
pub fn what_is_not_dropped_is_accepted()
    ensures { PassesAtOnce }
{}

/// The relay law over the steps of lines of which none was refused: where one is `relay N B B2`, what source 1 accepted on B2 is
/// what sink N offered of stream B, in order, with octets and times, without exactly the units that were dropped.
pub fn relay_law()
    ensures { (boxes : ℕ) → RelayLaw boxes }
{}

/// Lines of which none is refused give steps of which none is, with the relayed units among them: a unit that passes is one that a `unit`
/// line may give, of at most 4,095 octets.
pub fn relayed_units_are_permitted()
    ensures { (boxes : ℕ) → HappensLegally boxes }
{}

/// Without a `relay` line the steps of the lines are all that happens, a close of source 0 prints the units of its sinks and nothing
/// between them, and no line is Relayed.
pub fn nothing_happens_without_relays()
    ensures happens { NothingElse }
    ensures prints { PrintsUnits }
    ensures refuses { (boxes : ℕ) → NoneRelayed boxes }
{}

/// A unit that a relay offers is dropped exactly where one of four reasons holds as it is offered, after the units before it, and for
/// the first that holds: source 1 has stopped; the unit has more octets than Max_SDU of source 1; its time isn't above the last
/// accepted one of the stream; 16 units of the stream wait.
pub fn units_are_dropped_by_name()
    ensures { (boxes : ℕ) → DroppedLaw boxes }
{}
