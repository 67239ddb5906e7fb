//! What holds of every scenario of which no line was refused.
ghost use Rattle.std.specs.Prelude.{◌≡◌, List, ◌∷◌, None, length};
ghost use Rattle.bcast_io.specs.TextLines.{TextLine};
ghost use Rattle.unit_outlets.specs.Account.{Account};
ghost use Rattle.source_machine.specs.Airs.{airs_of, Airs};
ghost use Rattle.scenario_history.specs.Airs.{MeetAirs};
ghost use Rattle.scenario_history.specs.RelayedUnits.{answered_by};
ghost use Rattle.scenario_history.specs.Refusals.{line_refusal};
ghost use Rattle.scenario_history.specs.Runs.{Accepted};
ghost use Rattle.scenario_text.specs.declared.step.Step.{Step};
ghost use Rattle.scenario_history.specs.Lines.{handed_on, rules_of, steps_of};
ghost use Rattle.scenario_history.specs.Transcript.{end_after, out_of, transcript_end, transcript_of, units_of};
ghost use Rattle.scenario_laws.specs.Laws.{OrderLaw, StepsInOrder, UnitsLaw};
ghost use Rattle.scenario_laws.specs.OrderRows.{IsBeginWorked};

use announcement_train::an_announcement_is_read;
use delegator_history::{a_sink_is_put_where_its_source_is, a_source_has_one_train};
use group_sink::{each_stream_hands_its_units, one_event_is_open};
use isoal_framed::{a_framed_air_sends_units, framed_units_are_struck};
use isoal_unframed::units_are_struck;
use scenario_text::a_line_says_one_step;
use source_machine::{air_is_by_division, one_air, what_was_sent_stays};

/// Some airs meet the relation of their framing: those by division, and those that are filled act by act (Core 5.2, volume
/// 6 part G, sections 2.1 and 2.2).
pub fn some_airs_meet()
    ensures { MeetAirs airs_of }
{
    one_air();
}

/// At most one list of octets is the transcript of a text: any two airs that meet the relation of their framing give the
/// same, and the same end, the same units and the same output of its lines; none of its lines is refused over one and not
/// over the other, a line hands up the same units and prints the same, and the same happens by its lines, what relays pass among it:
/// the same becomes of each unit that relays offer.
pub fn one_transcript()
    ensures octets { (airs others : Airs) (starts : List Account) (lines : List TextLine) → MeetAirs airs → MeetAirs others
        → transcript_of airs starts lines ≡ transcript_of others starts lines }
    ensures end { (airs others : Airs) (starts : List Account) (lines : List TextLine) → MeetAirs airs → MeetAirs others
        → transcript_end airs starts lines ≡ transcript_end others starts lines }
    ensures units { (airs others : Airs) (starts : List Account) (lines : List TextLine) → MeetAirs airs → MeetAirs others
        → units_of airs starts lines ≡ units_of others starts lines }
    ensures out { (airs others : Airs) (starts : List Account) (lines : List TextLine) → MeetAirs airs → MeetAirs others
        → out_of airs starts lines ≡ out_of others starts lines }
    ensures lines_end { (airs others : Airs) (starts : List Account) (lines : List TextLine) → MeetAirs airs → MeetAirs others
        → end_after airs starts lines ≡ end_after others starts lines }
    ensures accepted { (airs others : Airs) (starts : List Account) (lines : List TextLine) → MeetAirs airs → MeetAirs others
        → Accepted (rules_of airs starts) lines → Accepted (rules_of others starts) lines }
    ensures handed { (airs others : Airs) (starts : List Account) (lines : List TextLine) (line : TextLine) → MeetAirs airs
        → MeetAirs others
        → Accepted (rules_of airs starts) lines → handed_on airs lines line ≡ handed_on others lines line }
    ensures steps { (airs others : Airs) (starts : List Account) (lines : List TextLine) → MeetAirs airs → MeetAirs others
        → Accepted (rules_of airs starts) lines → steps_of airs lines ≡ steps_of others lines }
    ensures output { (airs others : Airs) (starts : List Account) (lines : List TextLine) (line : TextLine) → MeetAirs airs
        → MeetAirs others
        → Accepted (rules_of airs starts) (line ∷ lines)
        → (rules_of airs starts).output lines line ≡ (rules_of others starts).output lines line }
    ensures answers { (airs others : Airs) (starts : List Account) (lines : List TextLine) (step : Step) → MeetAirs airs → MeetAirs others
        → Accepted (rules_of airs starts) lines → line_refusal airs (length starts) (steps_of airs lines) step ≡ None
        → answered_by airs (steps_of airs lines) step ≡ answered_by others (steps_of others lines) step }
{
    a_line_says_one_step();
    one_air();
}

/// The units law of a stay (Core 5.2, volume 6 part G, sections 2.1 and 2.2): where a sink was synchronized to its BIG by hand or by
/// what a source announced, and since then no PDU was injected into it and no train was given to it by its octets, it is on the
/// group of its source, by the source's own numbers, anchors and presentation delay, and what it handed up since on a stream that
/// it takes is struck. Unframed: one entry for each slot of each event closed in the stay, in
/// order: the source's unit of the slot, valid, where the slot has one and all numbers that carry it are heard, else lost.
/// Framed: one entry for each unit of the source whose start is heard, in order: valid where it is wholly laid and all numbers
/// that carry it were heard before their events closed, lost where the first that wasn't is closed. It holds after each step,
/// so at the end of each stay too.
pub fn units_law()
    ensures { (starts : List Account) → UnitsLaw starts }
{
    a_line_says_one_step();
    one_air();
    air_is_by_division();
    what_was_sent_stays();
    units_are_struck();
    framed_units_are_struck();
    a_framed_air_sends_units();
    one_event_is_open();
    each_stream_hands_its_units();
    a_source_has_one_train();
    an_announcement_is_read();
    a_sink_is_put_where_its_source_is();
}

/// The order of units over all stays of a sink with one and the same source since it was made, where no train was given to it by
/// its octets (Core 5.2, volume 6 part G, sections 2.1, 2.2 and 3.2): the events that it closed rise, so none is closed twice;
/// what it handed up on an unframed stream is one entry for each slot of each of these events that it took the stream in, in
/// order, at the slot's time by the source's anchors; on a framed stream its entries are, in order, of starts that it heard in
/// these stays, each at most once, at the time by the source's anchor of the event of the start and its TimeOffset. Where no PDU
/// was injected into it, its valid units of an unframed stream are, in order, units that the source accepted on the stream, each
/// at most once and the own one of its slot; and its entries of a framed stream are, in order, of such units, each at most once
/// and accepted before the event was laid that its first payload number is of.
pub fn order_law()
    ensures { (starts : List Account) → OrderLaw starts }
{
    a_line_says_one_step();
    one_air();
    air_is_by_division();
    what_was_sent_stays();
    units_are_struck();
    framed_units_are_struck();
    a_framed_air_sends_units();
    one_event_is_open();
    each_stream_hands_its_units();
    a_source_has_one_train();
    an_announcement_is_read();
    a_sink_is_put_where_its_source_is();
}

/// The order of units over any steps of which none was refused, the relayed units among them: what the order law says of the
/// steps of lines (Core 5.2, volume 6 part G, sections 2.1, 2.2 and 3.2).
pub fn steps_keep_order()
    ensures { StepsInOrder }
{
    a_line_says_one_step();
    one_air();
    air_is_by_division();
    what_was_sent_stays();
    units_are_struck();
    framed_units_are_struck();
    a_framed_air_sends_units();
    one_event_is_open();
    each_stream_hands_its_units();
    a_source_has_one_train();
    an_announcement_is_read();
    a_sink_is_put_where_its_source_is();
}

/// A framed unit that crosses two events, by hand: each entry of it is by the event that it begins in.
pub fn beginnings_are_worked()
    ensures { IsBeginWorked }
{}
