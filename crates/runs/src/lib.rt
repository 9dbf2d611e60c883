// Calls that make calls of a line: one of a list, a whole list with its record, a turn, two turns.
// What is promised of every run of a line stands on their contracts.
#![tactic(auto)]

mod call;
mod making;
mod path;
mod running;
mod turning;

pub use call::Call;
pub use making::{make, post};
pub use path::ValidPath;
pub use running::run;
pub use turning::{turn, two_turns};
