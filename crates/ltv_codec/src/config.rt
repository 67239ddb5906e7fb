ghost use Rattle.std.specs.Prelude.{◌≡◌};
ghost use Rattle.ltv_codec.specs.Layout.{AreLtvs};
ghost use Rattle.ltv_codec.specs.Values.{configured, sampling_frequency, frame_duration, audio_channel_allocation, octets_per_codec_frame, codec_frame_blocks_per_sdu};

use crate::values::{long_of, octet_of, short_of};

const SAMPLING_FREQUENCY: u8 = 0x01;

const FRAME_DURATION: u8 = 0x02;

const AUDIO_CHANNEL_ALLOCATION: u8 = 0x03;

const OCTETS_PER_CODEC_FRAME: u8 = 0x04;

const CODEC_FRAME_BLOCKS_PER_SDU: u8 = 0x05;

/// A codec configuration of LC3 (Basic Audio Profile 1.0, section 4.3.2). Each field is as it is encoded.
#[derive(Clone, Copy, Debug, PartialEq, Eq)]
pub struct Config {
    /// The code of the sampling frequency: 0x08 is 48000 Hz.
    pub frequency: Option<u8>,
    /// The code of the frame duration: 0x00 is 7.5 ms, 0x01 is 10 ms.
    pub duration: Option<u8>,
    /// The channels as a bit field.
    pub allocation: Option<u32>,
    pub frame_octets: Option<u16>,
    pub blocks: Option<u8>,
}

impl Config {
    /// The configuration whose values are those of `high`, and where one is absent there that of `low`. Both are LTV
    /// lists. In each the first value of a type counts, and as absent where its length is wrong.
    pub fn of(high: &[u8], low: &[u8]) -> Config
        requires high { AreLtvs high.now }
        requires low { AreLtvs low.now }
        ensures frequency { result.frequency ≡ configured sampling_frequency 1 high.now low.now }
        ensures duration { result.duration ≡ configured frame_duration 1 high.now low.now }
        ensures allocation { result.allocation ≡ configured audio_channel_allocation 4 high.now low.now }
        ensures frame_octets { result.frame_octets ≡ configured octets_per_codec_frame 2 high.now low.now }
        ensures blocks { result.blocks ≡ configured codec_frame_blocks_per_sdu 1 high.now low.now }
    {
        Config {
            frequency: octet_of(high, SAMPLING_FREQUENCY).or(octet_of(low, SAMPLING_FREQUENCY)),
            duration: octet_of(high, FRAME_DURATION).or(octet_of(low, FRAME_DURATION)),
            allocation: long_of(high, AUDIO_CHANNEL_ALLOCATION).or(long_of(
                low,
                AUDIO_CHANNEL_ALLOCATION,
            )),
            frame_octets: short_of(high, OCTETS_PER_CODEC_FRAME).or(short_of(
                low,
                OCTETS_PER_CODEC_FRAME,
            )),
            blocks: octet_of(high, CODEC_FRAME_BLOCKS_PER_SDU).or(octet_of(
                low,
                CODEC_FRAME_BLOCKS_PER_SDU,
            )),
        }
    }
}
