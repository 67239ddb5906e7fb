//! What an announced train is, and what it makes of a sink.
ghost use Rattle.std.specs.Prelude.{◌≡◌, ℕ, List, Bool};
ghost use Rattle.bcast_base.specs.Encoding.{IsOctets};
ghost use Rattle.base_grammar.specs.Layout.{Endpoint};
ghost use Rattle.big_info.specs.declared.info.BigInfo.{BigInfo};
ghost use Rattle.announcement_train.specs.Layout.{IsTrain};
ghost use Rattle.announcement_train.specs.Told.{Tells};
ghost use Rattle.announcement_train.specs.declared.train.Train.{Train};
ghost use Rattle.delegator_history.specs.Snapshots.{Snapshot};
ghost use Rattle.delegator_history.specs.Trains.{Setup, outcome_by, taken};
ghost use Rattle.sync_reference.specs.BigSync.{BigSync};
ghost use Rattle.delegator_history.specs.Announced.{IsOnGroup, heard_as};
ghost use Rattle.delegator_history.specs.Octets.{MayAnnounce, train_of};
ghost use Rattle.delegator_history.specs.Rows.{IsWorked, a_train};

/// A source has one train for an event: what it is, the event and its anchor fix each octet (Basic Audio Profile 1.0,
/// section 3.7.2). One is worked by hand.
pub fn a_source_has_one_train()
    ensures is { (broadcast_id : List ℕ) (base : Endpoint) (info : BigInfo) (event anchor : ℕ)
        → MayAnnounce broadcast_id base info event anchor
        → IsTrain broadcast_id base info event anchor (train_of broadcast_id base info event anchor) }
    ensures only { (broadcast_id : List ℕ) (base : Endpoint) (info : BigInfo) (event anchor : ℕ) (train : Train)
        → IsTrain broadcast_id base info event anchor train
        → IsOctets train.acad → train ≡ train_of broadcast_id base info event anchor }
    ensures worked { IsWorked a_train }
{}

/// A sink that is synchronized to a BIG by a train that tells of an event of it is where the group's source is: its group has the
/// numbers of the source's, which is not encrypted; its first event is the one that is told of, its anchor is that event's,
/// and its presentation delay is that of the BASE. It takes some streams, each with an index from 1 to Num_BIS.
pub fn a_sink_is_put_where_its_source_is()
    ensures { (setup : Setup) (snapshot : Snapshot) (address_type sid : ℕ) (train : Train) (broadcast_id : List ℕ) (base : Endpoint)
        (info : BigInfo) (event anchor : ℕ)
        (slot : ℕ) (bits : List ℕ) (encrypted : Bool) (big_sync : BigSync)
        → Tells train broadcast_id base info event anchor
        → outcome_by setup snapshot (heard_as address_type sid train) ≡ taken slot bits encrypted big_sync
        → IsOnGroup base info event anchor big_sync }
{}
