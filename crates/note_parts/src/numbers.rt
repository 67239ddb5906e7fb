//! The numbers of a group, and the times that they make.
ghost use Rattle.std.specs.Prelude.{◌≡◌, ◌<◌, ◌/◌};

use scenario_text::Step;

/// The numbers of a group, as they are tested.
#[derive(Clone, Copy)]
pub struct Numbers {
    pub iso: u64,
    pub sdu: u64,
    pub max_sdu: u64,
    pub max_pdu: u64,
    pub num_bis: u64,
    pub bn: u64,
    pub nse: u64,
    pub irc: u64,
    pub pto: u64,
    pub sub: u64,
    pub spacing: u64,
    pub phy: u64,
}

/// The numbers before any `group` line.
pub const NONE: Numbers = Numbers {
    iso: 0,
    sdu: 0,
    max_sdu: 0,
    max_pdu: 0,
    num_bis: 0,
    bn: 0,
    nse: 0,
    irc: 0,
    pto: 0,
    sub: 0,
    spacing: 0,
    phy: 0,
};

/// The numbers of a step that is `group`.
pub fn numbers_of(step: &Step) -> Option<Numbers> {
    match step {
        Step::Group {
            iso,
            sdu,
            max_sdu,
            max_pdu,
            num_bis,
            bn,
            nse,
            irc,
            pto,
            sub,
            spacing,
            phy,
            ..
        } => Some(Numbers {
            iso: u64::from(*iso),
            sdu: u64::from(*sdu),
            max_sdu: u64::from(*max_sdu),
            max_pdu: u64::from(*max_pdu),
            num_bis: u64::from(*num_bis),
            bn: u64::from(*bn),
            nse: u64::from(*nse),
            irc: u64::from(*irc),
            pto: u64::from(*pto),
            sub: u64::from(*sub),
            spacing: u64::from(*spacing),
            phy: u64::from(*phy),
        }),
        _ => None,
    }
}

impl Numbers {
    /// The ISO interval in µs.
    pub fn interval(&self) -> u64 {
        self.iso.saturating_mul(1250)
    }

    /// The time of the longest PDU in µs, with the octets of its MIC where the group is encrypted.
    pub fn longest(&self, is_encrypted: bool) -> u64 {
        let more: u64 = if is_encrypted { 4 } else { 0 };
        let octets = self.max_pdu.saturating_add(more);
        if self.phy == 0 {
            octets.saturating_add(10).saturating_mul(8)
        } else {
            octets.saturating_add(11).saturating_mul(4)
        }
    }

    /// The delay from the first subevent to the end of the last in µs.
    pub fn delay(&self, is_encrypted: bool) -> u64 {
        let streams = self.num_bis.saturating_sub(1).saturating_mul(self.spacing);
        let subevents = self.nse.saturating_sub(1).saturating_mul(self.sub);
        streams
            .saturating_add(subevents)
            .saturating_add(self.longest(is_encrypted))
    }
}

/// How often a number goes into another; 0 where it is 0.
pub fn quotient(number: u64, by: u64) -> u64
    ensures { 0 < by → result ≡ number / by }
{
    if by == 0 { 0 } else { number / by }
}
