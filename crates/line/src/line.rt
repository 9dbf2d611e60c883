use office::Office;
use planner::Planner;
use taker::Taker;
use transport::Transport;

mod asking;
mod delivering;
mod hearing;
mod opening;
mod reading;
mod sending;
mod starting;
mod writing;

// A planner's end, an office's end, a transport outward, one back, and what takes the letters.
// Only the line's own calls touch them.
#[derive(Drop)]
pub struct Line<O: Transport, B: Transport, K: Taker> {
    planner: Planner,
    office: Office,
    outward: O,
    back: B,
    taker: K,
}
