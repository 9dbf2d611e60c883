// Writing frames.
#![tactic(auto)]

mod forms;
mod parts;
mod text;

pub use forms::write;
