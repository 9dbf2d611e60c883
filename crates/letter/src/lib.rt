// Letters: a planner's changes to train paths, as bytes.
#![tactic(auto)]

mod change;
mod decoding;
mod encoding;
mod letter;
mod refusal;

pub use change::{Change, Path};
pub use decoding::decode;
pub use encoding::{encode_put, encode_withdrawal, withdrawal};
pub use letter::{Letter, is_letter};
pub use refusal::LetterRefusal;
