//! What each link of a sink comes to, whatever happens on the others.
ghost use Rattle.std.specs.Prelude.{ℕ, ◌≡◌, ◌≢◌, ◌<◌, ◌∷◌, false, List, Option, Some};
ghost use Rattle.assistant_machine.specs.Views.{reading_of};
ghost use Rattle.delegator_history.specs.Trains.{Setup};
ghost use Rattle.delegator_history.specs.Values.{value};
ghost use Rattle.sink_history.specs.Calls.{Call};
ghost use Rattle.sink_history.specs.Drains.{IsAnew, IsApart, IsDrained, LeavesLink, NoneNotifies, drained, notified_and_read};
ghost use Rattle.sink_history.specs.Links.{acts_of, is_forged, language, read_waits, state, view};
ghost use Rattle.sink_history.specs.Octets.{AreOctets};
ghost use Rattle.sink_history.specs.Steps.{IsStep, NotifiesLink};
ghost use Rattle.assistant_machine.specs.Links.{value_of};

use assistant_machine::where_nothing_waits_both_agree;
use bass_operations::read_is_operation;
use receive_state::{ReceiveState, read_is_state};

/// The octets that a slot has as its value are read as its state.
pub fn states_are_read_back()
    ensures { (setup : Setup) (slot : ℕ) (calls : List Call) → setup.slots < 256 → AreOctets calls
        → reading_of (value (state setup slot calls)) ≡ Some (state setup slot calls) }
{
    read_is_operation();
    read_is_state();
}

/// A step of the delegator, and a write that is served on any link, puts the notices of the step behind those that wait on
/// each link, as the delegator hands them out, and changes nothing that the assistants know.
pub fn a_step_notifies_each_link()
    ensures { (setup : Setup) (mtu : Option ℕ) (link : ℕ) (call : Call) (calls : List Call) → IsStep call
        → NotifiesLink setup mtu link call calls }
{}

/// A read that is served gives the state of its slot: the value of the slot on each link is its state.
pub fn a_read_gives_the_state()
    ensures { (setup : Setup) (mtu : Option ℕ) (link slot : ℕ) (calls : List Call) → setup.slots < 256 → slot < setup.slots
        → AreOctets calls
        → value_of (language mtu) slot (acts_of setup mtu link calls) ≡ state setup slot calls }
{
    read_is_operation();
    read_is_state();
}

/// The agreement law: on a link over which no notice was forged since it was joined, each slot for which neither a notice
/// nor a read waits has its state as its view. The views that follow when all waiting notices are delivered in order and
/// then all waiting reads are served are the states.
pub fn agreement_law()
    ensures agrees { (setup : Setup) (mtu : Option ℕ) (link slot : ℕ) (calls : List Call) → setup.slots < 256 → slot < setup.slots
        → AreOctets calls
        → is_forged link calls ≡ false → NoneNotifies setup mtu link slot calls → read_waits setup mtu link slot calls ≡ false
        → view setup mtu link slot calls ≡ state setup slot calls }
    ensures drained { (setup : Setup) (mtu : Option ℕ) (link slot : ℕ) (calls : List Call) → setup.slots < 256 → slot < setup.slots
        → AreOctets calls
        → is_forged link calls ≡ false → view setup mtu link slot (notified_and_read setup mtu link calls) ≡ state setup slot calls }
{
    read_is_operation();
    read_is_state();
    where_nothing_waits_both_agree::<Option<ReceiveState>>();
}

/// The links law: the same holds of each link, whatever the other links do and however often it parted and joined. No notice
/// is forged over a link other than 0; what happens on another link changes nothing of this one but through the states of the
/// slots; and a link that is joined begins anew.
pub fn links_law()
    ensures agrees { (setup : Setup) (mtu : Option ℕ) (link slot : ℕ) (calls : List Call) → setup.slots < 256 → slot < setup.slots
        → AreOctets calls
        → link ≢ 0 → NoneNotifies setup mtu link slot calls → read_waits setup mtu link slot calls ≡ false
        → view setup mtu link slot calls ≡ state setup slot calls }
    ensures apart { (setup : Setup) (mtu : Option ℕ) (link : ℕ) (call : Call) (calls : List Call) → IsApart link call
        → LeavesLink setup mtu link call calls }
    ensures anew { (setup : Setup) (mtu : Option ℕ) (link : ℕ) (calls : List Call) → IsAnew setup mtu link calls }
{
    read_is_operation();
    read_is_state();
    where_nothing_waits_both_agree::<Option<ReceiveState>>();
}

/// A drain leaves nothing that waits on its link.
pub fn a_drain_leaves_nothing()
    ensures { (setup : Setup) (mtu : Option ℕ) (link : ℕ) (calls : List Call) → IsDrained setup mtu link (drained setup mtu link calls) }
{}
