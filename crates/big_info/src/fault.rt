ghost use Rattle.std.specs.Prelude.{◌≡◌};
ghost use Rattle.big_info.specs.Faults.{number_of};

/// Why a group is refused, in the order of test.
#[derive(Clone, Copy, Debug, PartialEq, Eq)]
pub enum GroupFault {
    /// ISO_Interval is below 4 or above 3200, or Num_BIS is 0.
    RangeIso = 1,
    /// SDU_Interval is below 255, or Max_SDU is 0.
    RangeSdu,
    /// Max_PDU is 0 or above 251.
    RangePdu,
    /// BN is 0.
    Bn,
    /// NSE is 0 or no multiple of BN.
    NseNotMultiple,
    /// IRC is 0 or above NSE ÷ BN.
    Irc,
    /// The PHY is neither LE 1M nor LE 2M.
    PhyNotSupported,
    /// The group is framed and Max_PDU is below 8.
    FramedPduSmall,
    /// The group is unframed and the ISO interval in µs is no multiple of SDU_Interval.
    UnframedMultiple,
    /// The group is unframed and BN isn't the PDUs that the units of an event take.
    UnframedBn,
    /// A payload may be sent more events ahead than the limits allow.
    Horizon,
    /// NSE is above 1 and Sub_Interval is below the time of the longest PDU and 150 µs.
    SubInterval,
    /// The subevents of an event don't end within the ISO interval.
    SyncDelay,
    /// The group is encrypted.
    Encrypted,
}

impl GroupFault {
    /// The place in the order of test, from 1 to 14.
    pub fn number(self) -> u8
        ensures { result ≡ number_of self }
    {
        self as u8
    }
}
