// What is printed of refusals and frames.
use frame::Frame;
use frame_writer::write;
use planner::PlannerRefusal;
use std::alloc::{AllocError, Global};
use std::fmt;

// A refusal of the planner's end: its number and what it returns.
#[derive(Drop)]
pub struct Refused(pub PlannerRefusal);

impl fmt::Display for Refused {
    fn fmt<W: fmt::Write>(&self, f: &mut fmt::Formatter<W>) -> fmt::Result {
        let number = self.0.number();
        match self.0 {
            PlannerRefusal::LetterSize | PlannerRefusal::Limit => write!(f, "refused {number}"),
            PlannerRefusal::State(state) => write!(f, "refused {number} {state:?}"),
            PlannerRefusal::Window(lowest) => write!(f, "refused {number} {lowest}"),
            PlannerRefusal::Reader(fault) => {
                let place = fault.place;
                write!(f, "refused {number} {place}")
            }
            PlannerRefusal::Identifier(identifier) => write!(f, "refused {number} {identifier}"),
            PlannerRefusal::Upper(upper) => write!(f, "refused {number} {upper}"),
        }
    }
}

pub fn refusal(heap: Global, why: PlannerRefusal) -> Result<String, AllocError> {
    let refused = Refused(why);
    format!(in heap; "{refused}")
}

// The frame's text.
pub fn frame_text(heap: Global, frame: &Frame) -> Result<String, AllocError> {
    let mut memory = [0; 800];
    let len = write(frame, &mut memory);
    String::from_str(
        heap,
        std::str::from_utf8(&memory[..len]).unwrap_or("no text"),
    )
}
