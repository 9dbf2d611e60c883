// A line: the planner's end and the office's end over any two transports and any taker.
#![tactic(auto)]

mod frames;
mod line;

pub use line::Line;
