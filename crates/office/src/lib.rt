// The office's end of a line, the RM Destination: it accepts letters, acknowledges them and hands
// them over in order. It neither gets nor puts a frame itself.
#![tactic(auto)]

mod answer;
mod office;
mod places;
mod runs;
mod state;

pub use answer::ReadAnswer;
pub use office::Office;
pub use state::OfficeState;
