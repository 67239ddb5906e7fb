//! A number that is printed again and again.
ghost use Rattle.std.specs.Prelude.{◌≡◌, decimal};

use itoa::write_digits;
use std::marker::Model;

/// The most digits of a number.
pub(crate) const DIGITS: usize = 20;

/// A number with its digits in decimal, which are worked out once.
#[derive(Drop)]
pub struct PrintedNumber {
    number: u64,
    /// The digits stand in front.
    pub(crate) room: [u8; DIGITS],
    pub(crate) count: usize,
}

impl Model for PrintedNumber {
    ghost use Rattle.std.specs.Prelude.{ℕ, ◌≡◌, ◌≤◌, take, decimal};

    ghost Value = { ℕ };

    ghost view = { λ a. a.number };

    ghost invariant = { λ a. (a.count ≤ 20) × (take a.count a.room ≡ decimal a.number) };
}

impl PrintedNumber {
    /// The number 0.
    pub fn new() -> PrintedNumber
        ensures { result ≡ 0 }
    {
        PrintedNumber {
            number: 0,
            room: [b'0'; DIGITS],
            count: 1,
        }
    }

    /// Takes another number. Its digits are worked out only where it differs from the one before.
    #[inline(always)]
    pub fn set(&mut self, number: u64)
        ensures { self.new ≡ number }
    {
        if self.number != number {
            self.work_out(number);
        }
    }

    /// Works out the digits of a number, and keeps them. It stands apart, so that calls of `set` are short.
    #[inline(never)]
    fn work_out(&mut self, number: u64)
        ensures { self.new ≡ number }
    {
        let start = write_digits(number, &mut self.room, DIGITS);
        self.room.copy_within(start..DIGITS, 0);
        self.count = DIGITS - start;
        self.number = number;
    }

    /// Its digits.
    #[inline(always)]
    pub fn digits(&self) -> &[u8]
        ensures { result.now ≡ decimal self.now }
    {
        &self.room[..self.count]
    }
}
