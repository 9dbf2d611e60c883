ghost use Rattle.std.specs.Prelude.{◌≡◌, ◌≤◌, true, [], ◌∷◌, ◌++◌, if◌then◌else◌};
ghost use Rattle.frame.specs.Ascending.{follows, next_low, starts_at};
ghost use Rattle.frame.specs.Listed.{listed};

use super::{MOST, Ranges};
use crate::range::Range;

impl Ranges {
    // No ranges.
    pub fn new() -> Ranges
        ensures { listed result ≡ [] }
    {
        Ranges {
            list: [Range { lower: 0, upper: 0 }; MOST],
            count: 0,
        }
    }

    pub fn as_slice(&self) -> &[Range]
        ensures { result.now ≡ listed self.now }
    {
        &self.list[..self.count]
    }

    // Puts the range behind the others if it may stand there, and answers whether it did.
    pub fn push(&mut self, range: Range) -> bool
        ensures done { result ≡ follows (listed self.old) range }
        ensures list { listed self.new
            ≡ (if result then listed self.old ++ (range ∷ []) else listed self.old) }
    {
        if self.count >= MOST || !starts_at(range, self.next_low()) {
            return false;
        }
        *self = self.with(range);
        true
    }

    // The ranges with one more behind them.
    fn with(self, range: Range) -> Ranges
        requires { follows (listed self) range ≡ true }
        ensures { listed result ≡ listed self ++ (range ∷ []) }
    {
        let mut list = self.list;
        list[self.count] = range;
        Ranges {
            list,
            count: self.count + 1,
        }
    }

    // The lowest number that the next range may start at.
    fn next_low(&self) -> u64
        ensures value { result ≡ next_low 1 (listed self.now) }
    {
        match self.as_slice() {
            [] => 1,
            [.., last] => last.upper + 2,
        }
    }
}

// Whether the range is one of message numbers that starts at `low` or above.
fn starts_at(range: Range, low: u64) -> bool
    ensures { result ≡ starts_at low range }
{
    low <= range.lower && range.lower <= range.upper && range.upper <= 9_223_372_036_854_775_807
}
