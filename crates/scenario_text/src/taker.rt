ghost use Rattle.scenario_words.specs.Given.{Placed, placed};

use scenario_words::Value;

/// Makes something of a line: of its first word, and of the values at its places.
pub trait LineTaker {
    /// What is made.
    type Made;

    /// What is made of a line.
    ghost makes: { Self → Placed → Self.Made → Type 0 };

    /// Makes it of this first word and these values.
    fn take(&self, first: &[u8], values: &[Value<'_>]) -> Self::Made
        ensures { makes self.now (placed first.now values.now) result };
}
