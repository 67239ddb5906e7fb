ghost use Rattle.std.specs.Prelude.{◌≡◌};
ghost use Rattle.big_info.specs.Time.{iso_us_of, mpt_of, sync_delay_of};
ghost use Rattle.big_info.specs.Widths.{FitsWidths};

use crate::info::BigInfo;

/// The ISO interval in µs.
pub fn iso_us(info: &BigInfo) -> u32
    ensures { result ≡ iso_us_of info.now }
{
    info.iso_interval as u32 * 1250
}

/// MPT: the time in µs that the longest PDU takes on the air.
pub fn mpt(info: &BigInfo) -> u32
    ensures { result ≡ mpt_of info.now }
{
    let mic = if info.cipher.is_some() { 4 } else { 0 };
    let octets = info.max_pdu as u32 + mic;
    if info.phy == 0 {
        (octets + 10) * 8
    } else {
        (octets + 11) * 4
    }
}

/// BIG_Sync_Delay: from the anchor of an event to the end of its last PDU, in µs.
pub fn sync_delay(info: &BigInfo) -> u32
    requires { FitsWidths info.now }
    ensures { result ≡ sync_delay_of info.now }
{
    let streams = info.num_bis.saturating_sub(1) as u32 * info.bis_spacing;
    let subevents = info.nse.saturating_sub(1) as u32 * info.sub_interval;
    streams + subevents + mpt(info)
}
