// Frames: what the planner's end and the office's end say to one another, without its text.
#![tactic(auto)]

mod bounded;
mod fault;
mod form;
mod frame;
mod range;
mod ranges;

pub use bounded::{Bounded, Identifier, Number};
pub use fault::Fault;
pub use form::Form;
pub use frame::{Frame, Receipt};
pub use range::Range;
pub use ranges::Ranges;
