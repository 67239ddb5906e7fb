ghost use Rattle.std.specs.Prelude.{◌≡◌};
ghost use Rattle.std.specs.Option.{option_map};
ghost use Rattle.ltv_codec.specs.Layout.{AreLtvs};
ghost use Rattle.ltv_codec.specs.Values.{number_in, value_in, least_of, greatest_of, supported_sampling_frequencies, supported_frame_durations};
ghost use Rattle.ltv_codec.specs.Values.{supported_audio_channel_counts, supported_octets_per_codec_frame, supported_max_codec_frames_per_sdu};

use crate::reading::first_value;
use crate::values::{octet_of, short_of};

const SUPPORTED_SAMPLING_FREQUENCIES: u8 = 0x01;

const SUPPORTED_FRAME_DURATIONS: u8 = 0x02;

const SUPPORTED_AUDIO_CHANNEL_COUNTS: u8 = 0x03;

const SUPPORTED_OCTETS_PER_CODEC_FRAME: u8 = 0x04;

const SUPPORTED_MAX_CODEC_FRAMES_PER_SDU: u8 = 0x05;

/// The codec capabilities of LC3 (Basic Audio Profile 1.0, section 4.3.1). Each field is as it is encoded.
#[derive(Clone, Copy, Debug, PartialEq, Eq)]
pub struct Caps {
    /// Bit n is the frequency of code n + 1.
    pub frequencies: Option<u16>,
    /// Bit 0 is 7.5 ms, bit 1 is 10 ms, and bits 4 and 5 say which is preferred.
    pub durations: Option<u8>,
    /// Bit n is n + 1 channels.
    pub counts: Option<u8>,
    /// The fewest octets of a codec frame.
    pub least: Option<u16>,
    /// The most octets of a codec frame.
    pub greatest: Option<u16>,
    /// The most codec frames of a channel in a unit.
    pub frames: Option<u8>,
}

impl Caps {
    /// The capabilities that an LTV list has. The first value of a type counts, and as absent where its length is wrong.
    pub fn of(from: &[u8]) -> Caps
        requires { AreLtvs from.now }
        ensures frequencies { result.frequencies ≡ number_in supported_sampling_frequencies 2 from.now }
        ensures durations { result.durations ≡ number_in supported_frame_durations 1 from.now }
        ensures counts { result.counts ≡ number_in supported_audio_channel_counts 1 from.now }
        ensures least { result.least ≡ option_map least_of (value_in supported_octets_per_codec_frame 4 from.now) }
        ensures greatest { result.greatest ≡ option_map greatest_of (value_in supported_octets_per_codec_frame 4 from.now) }
        ensures frames { result.frames ≡ number_in supported_max_codec_frames_per_sdu 1 from.now }
    {
        let (least, greatest) = frame_octets_of(from);
        Caps {
            frequencies: short_of(from, SUPPORTED_SAMPLING_FREQUENCIES),
            durations: octet_of(from, SUPPORTED_FRAME_DURATIONS),
            counts: octet_of(from, SUPPORTED_AUDIO_CHANNEL_COUNTS),
            least,
            greatest,
            frames: octet_of(from, SUPPORTED_MAX_CODEC_FRAMES_PER_SDU),
        }
    }
}

// The fewest and the most octets of a codec frame.
fn frame_octets_of(from: &[u8]) -> (Option<u16>, Option<u16>)
    requires { AreLtvs from.now }
    ensures least { result.0 ≡ option_map least_of (value_in supported_octets_per_codec_frame 4 from.now) }
    ensures greatest { result.1 ≡ option_map greatest_of (value_in supported_octets_per_codec_frame 4 from.now) }
{
    match first_value(from, SUPPORTED_OCTETS_PER_CODEC_FRAME) {
        Some([a, b, c, d]) => {
            let least = u16::from_le_bytes([*a, *b]);
            let greatest = u16::from_le_bytes([*c, *d]);
            (Some(least), Some(greatest))
        }
        _ => (None, None),
    }
}
