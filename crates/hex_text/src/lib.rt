// Bytes written as pairs of hex digits.
#![tactic(auto)]

mod digits;
mod words;

pub use words::parse;
