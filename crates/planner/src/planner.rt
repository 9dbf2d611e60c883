ghost use Rattle.std.specs.Prelude.{◌≡◌, ◌+◌, ◌-◌, ◌<◌, ◌≤◌, true, false, length, is_some};
ghost use Rattle.planner.specs.States.{named, rank};
ghost use Rattle.planner.specs.Windows.{window_of, FreeFrom, Lowest};

use crate::slot::{Slot, WINDOW};
use crate::state::PlannerState;
use frame::Identifier;

mod asking;
mod hearing;
mod opening;
mod receipts;
mod sending;
mod writing;

pub use sending::Sent;

// The planner's end of a line.
#[derive(Drop)]
pub struct Planner {
    state: PlannerState,
    // the identifier of the sequence that was created
    held: Option<Identifier>,
    gap: u64,
    limit: u64,
    // the highest number written
    written: u64,
    // the lowest number without a receipt
    lowest: u64,
    // letters up to this number may be sent
    credit: u64,
    // for the numbers from the lowest on; with it no struct of their own, since the facts below tie both to `written`
    slots: [Slot; WINDOW],
    ghost whole: { length slots ≡ 8 },
    ghost limited: { written ≤ limit },
    ghost bounded: { limit ≤ 9223372036854775807 },
    ghost counted: { 1 ≤ lowest },
    ghost reached: { lowest ≤ written + 1 },
    ghost near: { written ≤ lowest + 7 },
    ghost rest: { FreeFrom (written + 1 - lowest) (window_of slots) },
    ghost first: { Lowest (window_of slots) },
    ghost known: { named state held ≡ true },
    ghost nameless: { (rank state < 2 → is_some held ≡ false) },
    ghost creditless: { (rank state < 2 → credit ≡ 0) },
}
