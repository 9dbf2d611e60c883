ghost use Rattle.std.specs.Prelude.{◌≡◌};
ghost use Rattle.office.specs.Destinations.{fresh};
ghost use Rattle.office.specs.Seen.{seen};

use super::Office;
use crate::places::Places;
use crate::state::OfficeState;
use frame::Identifier;

impl Office {
    // An office that has heard nothing.
    pub fn new(identifier: Identifier, admits: bool) -> Office
        ensures { seen result ≡ fresh identifier.value admits }
    {
        Office {
            identifier,
            admits,
            state: OfficeState::None,
            last: None,
            places: Places::new(),
        }
    }
}
