// Takers: what letters are handed over to, one after another.
#![tactic(auto)]

mod book;
mod journal;
mod refusal;
mod taker;

pub use book::Book;
pub use journal::Journal;
pub use refusal::TakerRefusal;
pub use taker::Taker;
