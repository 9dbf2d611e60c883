// What became of each letter of an input, and the book of paths at its end.
#![tactic(auto)]

mod outcome;
mod report;
mod text;

pub use outcome::{Outcome, handle};
pub use report::run;
pub use text::PathLine;
