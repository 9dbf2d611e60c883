ghost use Rattle.std.specs.Prelude.{◌≡◌};
ghost use Rattle.planner.specs.Settings.{chosen, chosen_of, refusal_number};

use super::{Settings, SettingsRefusal};
use frame::{Identifier, Number};

impl Settings {
    // Settings of these values; refuses those out of bounds, the identifier first, and then makes nothing.
    pub fn new(
        identifier: u64,
        gap: u64,
        limit: u64,
        admits: bool,
    ) -> Result<Settings, SettingsRefusal>
        ensures { chosen result ≡ chosen_of identifier gap limit admits }
    {
        let identifier = Identifier::new(identifier).ok_or(SettingsRefusal::Identifier)?;
        let limit = Number::new(limit).ok_or(SettingsRefusal::GapOrLimit)?;
        if !(1..=86_400).contains(&gap) {
            return Err(SettingsRefusal::GapOrLimit);
        }
        Ok(Settings {
            identifier,
            gap,
            limit,
            admits,
        })
    }

    pub fn identifier(&self) -> Identifier
        ensures { result ≡ self.now.identifier }
    {
        self.identifier
    }

    pub fn gap(&self) -> u64
        ensures { result ≡ self.now.gap }
    {
        self.gap
    }

    pub fn limit(&self) -> Number
        ensures { result ≡ self.now.limit }
    {
        self.limit
    }

    pub fn admits(&self) -> bool
        ensures { result ≡ self.now.admits }
    {
        self.admits
    }
}

impl SettingsRefusal {
    // The refusal's number in the table of refusals.
    pub fn number(self) -> u8
        ensures { result ≡ refusal_number self }
    {
        self as u8
    }
}
