//! The fields of a BIGInfo lie in words of whole octets, which no field crosses.
ghost use Rattle.std.specs.Prelude.{◌≡◌, ◌≤◌, ◌<◌, ◌+◌, ◌*◌, ◌/◌, ◌%◌, ◌^◌, length, take, drop};
ghost use Rattle.bcast_base.specs.Numbers.{sum_from};

use bcast_base::{read_le, write_le};

/// The word of `count` octets from `place` on.
pub fn word(from: &[u8], place: usize, count: usize) -> u64
    requires inside { place + count ≤ length from.now }
    requires room { count ≤ 8 }
    ensures joined { sum_from 0 (take (place + count) from.now) ≡ sum_from 0 (take place from.now) + 256 ^ place * result }
    ensures small { result < 2 ^ (8 * count) }
{
    read_le(&from[place..place + count])
}

/// The field of `count` bits from bit `first` of a word on.
pub fn bits(word: u64, first: u32, count: u32) -> u64
    requires { first + count < 64 }
    ensures { result ≡ word / 2 ^ first % 2 ^ count }
{
    (word >> first) % (1 << count)
}

/// Writes a word over the `count` octets from `place` on.
pub fn put_word(word: u64, place: usize, count: usize, into: &mut [u8; 57])
    requires inside { place + count ≤ 57 }
    requires room { count ≤ 8 }
    requires small { word < 2 ^ (8 * count) }
    ensures joined { sum_from 0 (take (place + count) into.new) ≡ sum_from 0 (take place into.old) + 256 ^ place * word }
    ensures rest { drop (place + count) into.new ≡ drop (place + count) into.old }
{
    write_le(word, &mut into[place..place + count]);
}
