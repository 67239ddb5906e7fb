//! The requirements of LC3, one by one.
ghost use Rattle.std.specs.Prelude.{◌≡◌, ◌≤◌, ◌<◌, ◌==◌};
ghost use Rattle.std.specs.Int.{bit_at};
ghost use Rattle.pacs_records.specs.Match.{channel_count};
ghost use Rattle.pacs_records.specs.Reasons.{frequency_met, duration_met, frame_octets_met, channels_met, frames_met, location_met, context_met};

use ltv_codec::{Caps, Config};

// The sampling frequency is there, and its bit is set.
pub(crate) fn has_frequency(config: &Config, caps: &Caps) -> bool
    ensures { result ≡ frequency_met config.now caps.now }
{
    let (Some(code), Some(supported)) = (config.frequency, caps.frequencies) else {
        return false;
    };
    1 <= code && code <= 16 && has_bit(u32::from(supported), u32::from(code) - 1)
}

// The frame duration is there, and its bit is set.
pub(crate) fn has_duration(config: &Config, caps: &Caps) -> bool
    ensures { result ≡ duration_met config.now caps.now }
{
    let (Some(code), Some(supported)) = (config.duration, caps.durations) else {
        return false;
    };
    code <= 1 && has_bit(u32::from(supported), u32::from(code))
}

// The octets of a frame are there, and within bounds that are there.
pub(crate) fn has_frame_octets(config: &Config, caps: &Caps) -> bool
    ensures { result ≡ frame_octets_met config.now caps.now }
{
    let Some(octets) = config.frame_octets else {
        return false;
    };
    let (Some(least), Some(greatest)) = (caps.least, caps.greatest) else {
        return false;
    };
    least <= octets && octets <= greatest
}

// The bit of the number of channels is set.
pub(crate) fn has_channels(config: &Config, caps: &Caps) -> bool
    ensures { result ≡ channels_met config.now caps.now }
{
    let channels = channels_of(config.allocation);
    channels <= 8 && has_bit(u32::from(caps.counts.unwrap_or(1)), channels - 1)
}

// The frames of all blocks and channels are not too many.
pub(crate) fn has_frames(config: &Config, caps: &Caps) -> bool
    ensures { result ≡ frames_met config.now caps.now }
{
    let channels = channels_of(config.allocation);
    let frames = u32::from(config.blocks.unwrap_or(1)) * channels;
    match caps.frames {
        Some(most) => frames <= u32::from(most),
        None => frames <= channels,
    }
}

// Channels and sink share a location, where both have one.
pub(crate) fn is_placed(config: &Config, locations: u32) -> bool
    ensures { result ≡ location_met config.now locations }
{
    let allocation = config.allocation.unwrap_or(0);
    allocation == 0 || locations == 0 || allocation & locations != 0
}

// One of the contexts is available.
pub(crate) fn has_context(contexts: Option<u16>, available: u16) -> bool
    ensures { result ≡ context_met contexts available }
{
    contexts.unwrap_or(1) & available != 0
}

// The number of channels: those of the allocation, or one where it has none.
#[tactic(auto, using(crate::proofs::Bits::one_bit))]
fn channels_of(allocation: Option<u32>) -> u32
    ensures same { result ≡ channel_count allocation }
    ensures least { 1 ≤ result }
    ensures greatest { result ≤ 32 }
{
    let bits = allocation.unwrap_or(0);
    if bits == 0 {
        return 1;
    }
    bits.count_ones()
}

// Whether the bit at this place is set.
#[tactic(auto, using(std::proofs::lemmas::Nat::Bits::shr_and_one))]
fn has_bit(set: u32, place: u32) -> bool
    requires { place < 32 }
    ensures { result ≡ (bit_at set place == 1) }
{
    (set >> place) & 1 == 1
}
