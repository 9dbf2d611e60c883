ghost use Rattle.std.specs.Prelude.{◌≡◌, ◌&&◌, MatchBool, nat_le};
ghost use Rattle.office.specs.Accepted.{is_accepted};
ghost use Rattle.office.specs.Seen.{seen};
ghost use Rattle.office.specs.Wholes.{is_over, is_whole, Whole};

use super::Office;
use super::reading::last_of;
use crate::state::OfficeState;

impl Office {
    // Whether the letter with this message number has been accepted.
    pub fn is_accepted(&self, number: u64) -> bool
        ensures { result ≡ is_accepted (seen self.now) number }
    {
        self.places.is_accepted(number)
    }

    // Whether the sequence is over and every letter up to the last has been accepted.
    pub fn whole(&self) -> bool
        ensures value { result ≡ is_whole (seen self.now) }
        ensures law { MatchBool result (Whole (seen self.now))
            (Whole (seen self.now) → ⊥) }
    {
        is_whole_at(self.state, last_of(self.last), self.places.reached())
    }
}

// Whether a sequence in this state is whole, where all message numbers up to `reached` are accepted
// and the next one is not.
fn is_whole_at(state: OfficeState, last: u64, reached: u64) -> bool
    ensures { result ≡ (is_over state && nat_le last reached) }
{
    matches!(state, OfficeState::Closed | OfficeState::Terminated) && last <= reached
}
