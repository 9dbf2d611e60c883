// What the calls of a line answer, and why they say no.
#![tactic(auto)]

mod answer;
mod refusal;
mod turn;

pub use answer::Answer;
pub use refusal::LineRefusal;
pub use turn::{Phase, TurnReport};
