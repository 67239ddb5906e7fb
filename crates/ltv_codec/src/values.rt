//! Values of known types, which are absent where their length is wrong.
ghost use Rattle.std.specs.Prelude.{◌≡◌};
ghost use Rattle.ltv_codec.specs.Layout.{AreLtvs};
ghost use Rattle.ltv_codec.specs.Values.{number_in};

use crate::reading::first_value;

// The first value of this type, if it is one octet.
pub(crate) fn octet_of(from: &[u8], kind: u8) -> Option<u8>
    requires { AreLtvs from.now }
    ensures { result ≡ number_in kind 1 from.now }
{
    match first_value(from, kind) {
        Some([octet]) => Some(*octet),
        _ => None,
    }
}

// The number of the first value of this type, if it is two octets.
pub(crate) fn short_of(from: &[u8], kind: u8) -> Option<u16>
    requires { AreLtvs from.now }
    ensures { result ≡ number_in kind 2 from.now }
{
    match first_value(from, kind) {
        Some([low, high]) => Some(u16::from_le_bytes([*low, *high])),
        _ => None,
    }
}

// The number of the first value of this type, if it is four octets.
pub(crate) fn long_of(from: &[u8], kind: u8) -> Option<u32>
    requires { AreLtvs from.now }
    ensures { result ≡ number_in kind 4 from.now }
{
    match first_value(from, kind) {
        Some([a, b, c, d]) => Some(u32::from_le_bytes([*a, *b, *c, *d])),
        _ => None,
    }
}
