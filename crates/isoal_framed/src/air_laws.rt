//! What holds of what a sender of a framed stream laid.
ghost use Rattle.std.specs.Prelude.{◌≡◌, ◌≤◌, ℕ, List, Some, length};
ghost use Rattle.std.specs.List.{slice_get};
ghost use Rattle.big_info.specs.declared.group.Group.{Group};
ghost use Rattle.big_info.specs.declared.info.BigInfo.{BigInfo};
ghost use Rattle.isoal_base.specs.Air.{Air};
ghost use Rattle.isoal_framed.specs.Air.{IsFramedAir};
ghost use Rattle.isoal_framed.specs.Calls.{Call, Timed, accepted};
ghost use Rattle.isoal_framed.specs.Filling.{framed_air};
ghost use Rattle.isoal_framed.specs.Sends.{Sends};
ghost use Rattle.isoal_framed.specs.State.Senders.{Sender, StandsFor};
ghost use Rattle.isoal_framed.specs.Struck.{Sent};
ghost use Rattle.isoal_framed.specs.Worked.{LeftOut, OverTwoEvents, OverTwoPdus};

/// The conditions on the places of its PDUs fix what is laid: a list of calls lays at most one air.
pub fn one_framed_air()
    ensures { (info : BigInfo) (calls : List Call) (one other : Air) → IsFramedAir info calls one → IsFramedAir info calls other
        → one ≡ other }
{}

/// They lay one: that which is laid act by act, where a group has a PDU in an event and PDUs have room for a start.
pub fn a_framed_air_is_there()
    ensures { (info : BigInfo) (calls : List Call) → 1 ≤ info.bn → 8 ≤ info.max_pdu → IsFramedAir info calls (framed_air info calls) }
{}

/// What a sender laid in its calls meets these conditions.
pub fn a_sender_lays_a_framed_air()
    ensures { (info : BigInfo) (calls : List Call) (air : Air) (sender : Sender) → StandsFor info calls air sender
        → IsFramedAir info calls air }
{}

/// A framed air sends some of the accepted units, in order, each carried by numbers one behind the other, of which the last
/// alone may be partly laid: its PDUs are those of these units. A unit's TimeOffset is from its time to the anchor of the
/// event of its first number, which was laid after the unit was accepted.
pub fn a_framed_air_sends_units()
    ensures { (group : Group) (calls : List Call) (air : Air) → group.info.framing ≡ 1
        → ((i : ℕ) (unit : Timed) → slice_get (accepted calls) i ≡ Some unit → length unit.octets ≤ group.info.max_sdu)
        → IsFramedAir group.info calls air → (units : List Sent) × Sends group.info calls air units }
{}

/// Three events worked by hand.
pub fn worked_events()
    ensures over_two_pdus { OverTwoPdus }
    ensures over_two_events { OverTwoEvents }
    ensures left_out { LeftOut }
{}
