ghost use Rattle.std.specs.Prelude.{◌≡◌};
ghost use Rattle.bcast_base.specs.Encoding.{number as number_in};
ghost use Rattle.scenario_words.specs.ValueWords.{framing_name, time_name};
ghost use Rattle.scenario_words.specs.PrintedWords.{spelled};

use scenario_words::Word;

/// A number in 2 octets, the least octet first.
#[tactic(auto, using(crate::proofs::LowFirst::two_low_first))]
pub fn two_octets(number: u16) -> [u8; 2]
    ensures { result ≡ number_in 2 number }
{
    number.to_le_bytes()
}

/// A number in 4 octets, the least octet first.
#[tactic(auto, using(crate::proofs::LowFirst::four_low_first))]
pub fn four_octets(bits: u32) -> [u8; 4]
    ensures { result ≡ number_in 4 bits }
{
    bits.to_le_bytes()
}

/// The name of a framing: `unframed` for 0, and else `framed`.
pub fn framing_word(framing: u8) -> Word<'static>
    ensures { spelled result ≡ framing_name framing }
{
    if framing == 0 {
        Word::Text(b"unframed")
    } else {
        Word::Text(b"framed")
    }
}

/// A time, or `-` for none.
pub fn time_word(time: Option<u64>) -> Word<'static>
    ensures { spelled result ≡ time_name time }
{
    match time {
        None => Word::Text(b"-"),
        Some(time) => Word::Number(time),
    }
}
