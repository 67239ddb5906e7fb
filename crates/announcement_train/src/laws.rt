//! What a receiver is told that reads a train.
ghost use Rattle.std.specs.Prelude.{◌≤◌, ℕ, List};
ghost use Rattle.base_grammar.specs.Layout.{Endpoint};
ghost use Rattle.big_info.specs.declared.info.BigInfo.{BigInfo};
ghost use Rattle.announcement_train.specs.Layout.{IsTrain};
ghost use Rattle.announcement_train.specs.Told.{Tells};
ghost use Rattle.announcement_train.specs.declared.train.Train.{Train};

/// The law of an announcement. The EXT of a train is read as its Broadcast_ID, its ADV as its BASE, and its ACAD as a
/// BIGInfo with the numbers and the cipher of its group. The payload count is that of the event, and the time of the train
/// and the BIG_Offset are the anchor of the event: a receiver that follows the octets is put where the source is.
pub fn an_announcement_is_read()
    ensures { (train : Train) (broadcast_id : List ℕ) (base : Endpoint) (info : BigInfo) (event anchor : ℕ) → 1 ≤ info.bn
        → IsTrain broadcast_id base info event anchor train → Tells train broadcast_id base info event anchor }
{}
