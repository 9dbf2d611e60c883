// The planner's end of a line: it numbers letters, sends them until they are acknowledged, and closes the sequence.
#![tactic(auto)]

mod draft;
mod planner;
mod refusal;
mod settings;
mod slot;
mod state;

pub use draft::Draft;
pub use planner::{Planner, Sent};
pub use refusal::PlannerRefusal;
pub use settings::{Settings, SettingsRefusal};
pub use state::PlannerState;
