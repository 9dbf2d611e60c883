ghost use Rattle.std.specs.Prelude.{◌≡◌};
ghost use Rattle.std.specs.Option.{option_map};
ghost use Rattle.office.specs.Reads.{last_of};
ghost use Rattle.office.specs.Seen.{seen};

use super::Office;
use crate::state::OfficeState;
use frame::{Identifier, Number};

impl Office {
    pub fn identifier(&self) -> Identifier
        ensures { result.value ≡ (seen self.now).identifier }
    {
        self.identifier
    }

    pub fn state(&self) -> OfficeState
        ensures { result ≡ (seen self.now).state }
    {
        self.state
    }

    // All message numbers up to this one are delivered.
    pub fn highest_delivered(&self) -> u64
        ensures { result ≡ (seen self.now).delivered }
    {
        self.places.delivered()
    }

    // The first LastMsgNumber heard; none if none was, or it was left out.
    pub fn last(&self) -> Option<Number>
        ensures { last_of (option_map (λ m. m.value) result) ≡ (seen self.now).last }
    {
        self.last
    }
}
