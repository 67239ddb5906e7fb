//! Numbers and times among the words of a line.
ghost use Rattle.std.specs.Prelude.{◌≡◌, ◌≤◌, ◌^◌, ◌+◌, ◌∷◌, Ok, codes, false, IfOk, IfSome, IsNone, IsTrue};
ghost use Rattle.scenario_words.specs.Reading.{ReadsNext, decimal_in, next, time_in};

use crate::cursor::Cursor;
use crate::fault::Misfit;
use crate::first_word::short_number;
use crate::word::{decimal_within, time_of};

/// The most digits of a number that is read in one pass: its value fits 64 bits.
const MOST_DIGITS: usize = 18;

/// The greatest time that a unit may have, in µs.
const GREATEST_TIME: u64 = 1 << 62;

impl<'a> Cursor<'a> {
    /// The next word where it is a number of at most so many digits, up to 18, from `least` to `greatest`. Else the answer is None,
    /// and no word is read.
    #[inline(always)]
    fn short(&mut self, most: usize, least: u64, greatest: u64) -> Option<u64>
        requires { most ≤ 18 }
        ensures found { IfSome result (λ n.
            (least ≤ n) × (n ≤ greatest) × (next (decimal_in least greatest) self.old ≡ Ok (n, self.new))) }
        ensures other { IsNone result → self.new ≡ self.old }
    {
        let rest = self.rest?;
        let (n, left) = short_number(rest, most)?;
        if n < least {
            return None;
        }
        if greatest < n {
            return None;
        }
        self.rest = left;
        self.read += 1;
        Some(n)
    }

    /// The same as `number`, for a word of any length; a function of its own, so that `number` is short where it is called.
    #[inline(never)]
    #[tactic(auto, using(crate::proofs::NextWords::fits, crate::proofs::NextWords::misfit, crate::proofs::OneWord::decimal_range))]
    fn any_number(&mut self, least: u64, greatest: u64) -> Result<u64, Misfit>
        ensures range { IfOk result (λ n. (least ≤ n) × (n ≤ greatest)) }
        ensures gives { ReadsNext (λ n. n) result self.new (next (decimal_in least greatest) self.old) }
    {
        if let Some(n) = self.short(MOST_DIGITS, least, greatest) {
            return Ok(n);
        }
        let word = self.word()?;
        match decimal_within(word, least, greatest) {
            Some(n) => Ok(n),
            None => Err(self.misfit()),
        }
    }

    /// A decimal from `least` to `greatest`. Most are one digit.
    pub fn number(&mut self, least: u64, greatest: u64) -> Result<u64, Misfit>
        ensures range { IfOk result (λ n. (least ≤ n) × (n ≤ greatest)) }
        ensures gives { ReadsNext (λ n. n) result self.new (next (decimal_in least greatest) self.old) }
    {
        match self.short(1, least, greatest) {
            Some(n) => Ok(n),
            None => self.any_number(least, greatest),
        }
    }

    /// The next word where it is `-` and more stands behind it. Else no word is read.
    #[inline(always)]
    fn dash(&mut self) -> bool
        ensures found { IsTrue result → (self.old.words ≡ codes "-" ∷ self.new.words) × (self.new.read ≡ self.old.read + 1) }
        ensures other { result ≡ false → self.new ≡ self.old }
    {
        let Some(rest) = self.rest else {
            return false;
        };
        if rest.len() < 2 || rest[0] != b'-' || rest[1] != b' ' {
            return false;
        }
        self.rest = Some(&rest[2..]);
        self.read += 1;
        true
    }

    /// The same as `time`, for any word; a function of its own, so that `time` is short where it is called.
    #[inline(never)]
    #[tactic(auto, using(crate::proofs::NextWords::fits, crate::proofs::NextWords::misfit, crate::proofs::NextWords::time_fits))]
    fn any_time(&mut self) -> Result<Option<u64>, Misfit>
        ensures { ReadsNext (λ n. n) result self.new (next (time_in (2 ^ 62)) self.old) }
    {
        if let Some(time) = self.short(MOST_DIGITS, 0, GREATEST_TIME) {
            return Ok(Some(time));
        }
        let word = self.word()?;
        match time_of(word, GREATEST_TIME) {
            Some(time) => Ok(time),
            None => Err(self.misfit()),
        }
    }

    /// `-`, or a decimal of at most 2 ^ 62.
    pub fn time(&mut self) -> Result<Option<u64>, Misfit>
        ensures { ReadsNext (λ n. n) result self.new (next (time_in (2 ^ 62)) self.old) }
    {
        if self.dash() {
            return Ok(None);
        }
        self.any_time()
    }
}
