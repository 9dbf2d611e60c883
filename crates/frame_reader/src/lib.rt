// Reading frames.
#![tactic(auto)]

mod forms;
mod parts;
mod reader;
mod values;

pub use forms::read;
pub use pieces::ReadFault;
