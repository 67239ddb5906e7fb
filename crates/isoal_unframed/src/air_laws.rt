//! What holds of every sender's calls and of what it laid.
ghost use Rattle.std.specs.Prelude.{◌≡◌, ◌≤◌, ◌<◌, ◌+◌, ◌-◌, ◌*◌, ◌/◌, ◌∷◌, ℕ, min, List, length, Some, None};
ghost use Rattle.std.specs.List.{flat_map, range_with_len};
ghost use Rattle.big_info.specs.Schedule.{per_event_of, per_unit_of};
ghost use Rattle.big_info.specs.declared.group.Group.{Group};
ghost use Rattle.big_info.specs.declared.info.BigInfo.{BigInfo};
ghost use Rattle.iso_pdu.specs.Encoding.{payload_of, pdu};
ghost use Rattle.isoal_unframed.specs.Slot.{fragments_of, laid, laid_unit};
ghost use Rattle.isoal_base.specs.Air.{pdu_at};
ghost use Rattle.isoal_unframed.specs.Air.{laid_u, unframed_air, unit_at};
ghost use Rattle.isoal_unframed.specs.Calls.{Call, accepted, begun, events, lays};
ghost use Rattle.isoal_unframed.specs.State.Sender.{Sender, StandsFor};

/// The PDU of each payload number of an event that was laid is the one that division gives; it stays whatever follows.
pub fn each_number_is_laid()
    ensures laid { (group : Group) (calls : List Call) (number : ℕ) → number / group.info.bn < events calls
        → pdu_at group.info.bn (unframed_air group.info calls) number ≡ Some (laid_u group.info calls number) }
    ensures places { (group : Group) (calls : List Call) (event slot r : ℕ) → group.info.framing ≡ 0 → slot < per_event_of group.info
        → r < per_unit_of group.info
        → laid_u group.info calls (event * group.info.bn + (slot * per_unit_of group.info + r))
        ≡ pdu (laid group.info.max_pdu (unit_at group.info calls event slot) r) }
    ensures others { (info : BigInfo) (calls : List Call) (number : ℕ) → events calls ≤ number / info.bn
        → pdu_at info.bn (unframed_air info calls) number ≡ None }
    ensures entries { (info : BigInfo) (calls : List Call) → length (unframed_air info calls) ≡ events calls }
    ensures stays { (info : BigInfo) (call : Call) (calls : List Call) (number : ℕ) → number / info.bn < events calls
        → laid_u info (call ∷ calls) number ≡ laid_u info calls number }
{}

/// As many units wait as were accepted and have no slot yet.
pub fn the_rest_waits()
    ensures waiting { (info : BigInfo) (calls : List Call) (sender : Sender) → StandsFor info calls sender
        → length sender.waiting ≡ length (accepted calls) - begun info calls }
    ensures within { (info : BigInfo) (calls : List Call) → begun info calls ≤ length (accepted calls) }
{}

/// Events that are laid one behind the other give the slots that they have together to the units that wait.
pub fn slots_add_up()
    ensures { (info : BigInfo) (calls : List Call) (count : ℕ)
        → begun info (lays count calls) ≡ min (length (accepted calls)) (begun info calls + count * per_event_of info) }
{}

/// The slot of a unit of at most Max_SDU octets has a place for each of its fragments, and its PDUs carry the whole unit.
pub fn a_slot_carries_its_unit()
    ensures places { (group : Group) (unit : List ℕ) → length unit ≤ group.info.max_sdu
        → fragments_of group.info.max_pdu unit ≤ per_unit_of group.info }
    ensures octets { (max_pdu : ℕ) (count : ℕ) (unit : List ℕ) → 1 ≤ max_pdu → fragments_of max_pdu unit ≤ count
        → flat_map (λ r. payload_of (laid_unit max_pdu unit r)) (range_with_len 0 count) ≡ unit }
{}
