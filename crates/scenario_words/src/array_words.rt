//! Words of exactly so many octets.
ghost use Rattle.std.specs.Prelude.{◌≡◌, ◌≤◌, ◌<◌, ◌^◌, ◌*◌, Ok, length, IfOk, IfSome, IsNone};
ghost use Rattle.scenario_words.specs.Reading.{ReadsNext, next, exact_in, number_in};

use crate::cursor::Cursor;
use crate::fault::Misfit;
use crate::first_word::pairs_in_front;
use crate::word::array_of;
use bcast_base::read_le;

impl<'a> Cursor<'a> {
    /// The next word where it is exactly `N` octets: its end is looked for at its place alone. Else the answer is None, and no word is
    /// read.
    #[inline(always)]
    #[tactic(auto, using(crate::proofs::Arrays::array_fits))]
    fn short_array<const N: usize>(&mut self) -> Option<[u8; N]>
        requires { 0 < N }
        ensures range { IfSome result (λ octets. length octets ≡ N) }
        ensures found { IfSome result (λ octets. next (exact_in N) self.old ≡ Ok (octets, self.new)) }
        ensures other { IsNone result → self.new ≡ self.old }
    {
        let rest = self.rest?;
        let (word, left) = pairs_in_front(rest, N)?;
        let octets = array_of(word)?;
        self.rest = left;
        self.read += 1;
        Some(octets)
    }

    /// The same as `array`, for any word; a function of its own, so that `array` is short where it is called.
    #[inline(never)]
    #[tactic(auto, using(crate::proofs::NextWords::fits, crate::proofs::NextWords::misfit, crate::proofs::OneWord::exact_length))]
    fn any_array<const N: usize>(&mut self) -> Result<[u8; N], Misfit>
        requires { 0 < N }
        ensures range { IfOk result (λ octets. length octets ≡ N) }
        ensures gives { ReadsNext (λ n. n) result self.new (next (exact_in N) self.old) }
    {
        let word = self.word()?;
        match array_of(word) {
            Some(octets) => Ok(octets),
            None => Err(self.misfit()),
        }
    }

    /// Exactly `N` octets as pairs of hexadecimal digits.
    pub fn array<const N: usize>(&mut self) -> Result<[u8; N], Misfit>
        requires { 0 < N }
        ensures range { IfOk result (λ octets. length octets ≡ N) }
        ensures gives { ReadsNext (λ n. n) result self.new (next (exact_in N) self.old) }
    {
        match self.short_array() {
            Some(octets) => Ok(octets),
            None => self.any_array(),
        }
    }

    /// The number in exactly `N` octets, the least octet first.
    #[tactic(auto, using(crate::proofs::Arrays::number_read, crate::proofs::Arrays::number_small, crate::proofs::Arrays::number_fails))]
    fn little<const N: usize>(&mut self) -> Result<u64, Misfit>
        requires some { 0 < N }
        requires few { N ≤ 8 }
        ensures range { IfOk result (λ n. n < 2 ^ (8 * N)) }
        ensures gives { ReadsNext (λ n. n) result self.new (next (number_in N) self.old) }
    {
        let octets = self.array::<N>()?;
        Ok(read_le(&octets))
    }

    /// The number in 2 octets.
    pub fn two_octets(&mut self) -> Result<u16, Misfit>
        ensures { ReadsNext (λ n. n) result self.new (next (number_in 2) self.old) }
    {
        Ok(self.little::<2>()? as u16)
    }

    /// The number in 4 octets.
    pub fn four_octets(&mut self) -> Result<u32, Misfit>
        ensures { ReadsNext (λ n. n) result self.new (next (number_in 4) self.old) }
    {
        Ok(self.little::<4>()? as u32)
    }
}
