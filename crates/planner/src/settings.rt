ghost use Rattle.std.specs.Prelude.{◌≤◌};

use frame::{Identifier, Number};

mod bounds;

// What a line is set up with.
#[derive(Clone, Copy)]
pub struct Settings {
    // the identifier of its sequence
    identifier: Identifier,
    // how many seconds pass before a letter is sent again
    gap: u64,
    // the highest number that a letter may get
    limit: Number,
    // whether the office's end creates a sequence when it is asked to
    admits: bool,
    ghost some: { 1 ≤ gap },
    ghost day: { gap ≤ 86400 },
}

// Why no settings are made: each with its number in the table of refusals.
#[derive(Clone, Copy, PartialEq, Eq, Debug)]
pub enum SettingsRefusal {
    // the identifier is not 1 to 4,294,967,295
    Identifier = 11,
    // the gap is not 1 to 86,400, or the limit not 1 to 9,223,372,036,854,775,807
    GapOrLimit = 12,
}
