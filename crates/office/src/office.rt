use crate::places::Places;
use crate::state::OfficeState;
use frame::{Identifier, Number};

mod accepting;
mod acknowledging;
mod asking;
mod completing;
mod delivering;
mod reading;
mod starting;

// The office's end of one line.
#[derive(Clone, Copy)]
pub struct Office {
    identifier: Identifier,
    // Whether it lets a sequence be created.
    admits: bool,
    state: OfficeState,
    // The first LastMsgNumber heard; none if none was, or it was left out.
    last: Option<Number>,
    // The letters accepted and not delivered yet.
    places: Places,
}
