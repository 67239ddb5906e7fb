ghost use Rattle.std.specs.Prelude.{◌≡◌};
ghost use Rattle.std.specs.List.{list_all};
ghost use Rattle.toml.specs.View.{view};
ghost use Rattle.scenario_toml.specs.Words as spec;
ghost use Rattle.scenario_toml.specs.State.Growth.{Grows};

use crate::fault::TomlFault;
use crate::parts::{Part, put};
use bcast_base::Octets;
use itoa::Buffer;
use toml::Value;

/// Whether octets are a word: one or more, each from 0x21 to 0x7E.
fn is_word(octets: &[u8]) -> bool
    ensures { result ≡ spec.is_word octets.now }
{
    !octets.is_empty() && are_printed(octets)
}

/// Whether each octet is from 0x21 to 0x7E.
fn are_printed(octets: &[u8]) -> bool
    ensures { result ≡ list_all spec.is_printed octets.now }
{
    'octets: for octet in octets {
        if *octet < 0x21 || 0x7e < *octet {
            return false;
        }
    }
    true
}

/// A text, which is a word behind a space.
#[derive(Clone, Copy)]
pub(crate) struct TextWord;

impl Part for TextWord {
    ghost part = { λ _. spec.spaced_text };

    #[tactic(auto, using(crate::proofs::Growing::goes, crate::proofs::Growing::stops))]
    fn put(&self, text: &mut Octets, value: &Value) -> Result<(), TomlFault>
        ensures { Grows (spec.spaced_text (view value.now)) text.old text.new result }
    {
        let Some(word) = value.as_str() else {
            return Err(TomlFault::BadDocument);
        };
        if !is_word(word.as_bytes()) {
            return Err(TomlFault::BadDocument);
        }
        text.push(b' ')?;
        put(text, word.as_bytes())
    }
}

/// An integer, which is a decimal behind a space.
#[derive(Clone, Copy)]
pub(crate) struct NumberWord;

impl Part for NumberWord {
    ghost part = { λ _. spec.spaced_number };

    #[tactic(auto, using(crate::proofs::Growing::goes, crate::proofs::Growing::stops))]
    fn put(&self, text: &mut Octets, value: &Value) -> Result<(), TomlFault>
        ensures { Grows (spec.spaced_number (view value.now)) text.old text.new result }
    {
        let Some(number) = value.as_integer() else {
            return Err(TomlFault::BadDocument);
        };
        let mut buffer = Buffer::new();
        text.push(b' ')?;
        put(text, buffer.format(number).as_bytes())
    }
}
