//! Where a Scan Delegator is, and where bits of streams stand.
ghost use Rattle.std.specs.Prelude.{◌≡◌, true, ℕ, List, Some, None, is_some, option_map, if◌then◌else◌};
ghost use Rattle.delegator_history.specs.Snapshots.{on_group};
ghost use Rattle.delegator_history.specs.States.{snapshot_of};
ghost use Rattle.delegator_history.specs.Trains.{Setup};
ghost use Rattle.delegator_history.specs.Values.{state_at, HasBit};
ghost use Rattle.group_sink.specs.Calls.{place};
ghost use Rattle.receive_state.specs.declared.state.ReceiveState.{ReceiveState};
ghost use Rattle.delegator_control.specs.Groups.{has_group};
ghost use Rattle.delegator_machine.specs.Calls.{Call, steps_of};
ghost use Rattle.delegator_machine.specs.Groups.{group_calls, last_big_sync, by_numbers};

use delegator_history::bits_stand_on_the_group;

/// The receivers are on a group exactly where the control half says that the sink is on one, and then on that of the last step
/// that put the sink on one: of a `tune`, or of a train that was taken.
pub fn the_sink_is_where_its_steps_put_it()
    ensures both { (setup : Setup) (calls : List Call) → is_some (place (group_calls setup calls))
        ≡ has_group (snapshot_of setup (steps_of calls)).place }
    ensures group { (setup : Setup) (calls : List Call)
        → place (group_calls setup calls) ≡ (if has_group (snapshot_of setup (steps_of calls)).place then option_map by_numbers
        (last_big_sync setup (steps_of calls)) else None) }
{}

/// A set bit of a stream stands only in the slot whose group the sink is on, and only while the receivers are on a group.
pub fn bits_stand_where_the_sink_is()
    ensures slot { (setup : Setup) (calls : List Call) (slot : ℕ) (state : ReceiveState)
        → state_at (snapshot_of setup (steps_of calls)) slot ≡ Some state
        → HasBit state → (snapshot_of setup (steps_of calls)).place ≡ on_group (Some slot) }
    ensures receivers { (setup : Setup) (calls : List Call) (slot : ℕ) (state : ReceiveState)
        → state_at (snapshot_of setup (steps_of calls)) slot ≡ Some state
        → HasBit state → is_some (place (group_calls setup calls)) ≡ true }
{
    bits_stand_on_the_group();
}
