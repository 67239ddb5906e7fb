//! What holds of every BIGInfo, whoever writes or reads it.
ghost use Rattle.std.specs.Prelude.{◌≡◌, ℕ, List};
ghost use Rattle.big_info.specs.Layout.{AreOctets, BigIs, SameButRfu};
ghost use Rattle.big_info.specs.declared.info.BigInfo.{BigInfo};

/// No octets have the layout of two infos, so what is written is read again.
pub fn octets_are_of_one_info()
    ensures { (one other : BigInfo) (octets : List ℕ) → BigIs one octets → BigIs other octets → one ≡ other }
{}

/// Octets with the layout of one info are the same but for RFU, so what is read is written again.
pub fn info_has_one_encoding()
    ensures { (info : BigInfo) (one other : List ℕ) → AreOctets one → AreOctets other → BigIs info one → BigIs info other
        → SameButRfu one other }
{}
