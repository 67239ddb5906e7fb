ghost use Rattle.std.specs.Prelude.{◌≡◌};
ghost use Rattle.ltv_codec.specs.Layout.{AreLtvs};
ghost use Rattle.ltv_codec.specs.Values.{number_in, streaming_audio_contexts};

use crate::values::short_of;

const STREAMING_AUDIO_CONTEXTS: u8 = 0x02;

/// The Streaming_Audio_Contexts of metadata that is an LTV list. A first value that is not of 2 octets counts as absent.
pub fn contexts_of(from: &[u8]) -> Option<u16>
    requires { AreLtvs from.now }
    ensures { result ≡ number_in streaming_audio_contexts 2 from.now }
{
    short_of(from, STREAMING_AUDIO_CONTEXTS)
}
