ghost use Rattle.std.specs.Prelude.{◌≡◌};
ghost use Rattle.planner.specs.Opening.{opens, asks, closes, finishes};
ghost use Rattle.planner.specs.Sources.{acted, said, source_of};

use super::Planner;
use crate::refusal::PlannerRefusal;
use crate::state::PlannerState;
use frame::{Frame, Number};

impl Planner {
    // Asks for a sequence: the frame to put.
    pub fn open(&mut self) -> Result<Frame, PlannerRefusal>
        ensures { acted self.new (said result) ≡ opens (source_of self.old) }
    {
        match self.state {
            PlannerState::None | PlannerState::Creating => {
                self.state = PlannerState::Creating;
                Ok(Frame::CreateSequence)
            }
            state => Err(PlannerRefusal::State(state)),
        }
    }

    // Asks for a receipt: the frame to put.
    pub fn ask(&mut self) -> Result<Frame, PlannerRefusal>
        ensures { acted self.new (said result) ≡ asks (source_of self.old) }
    {
        match (self.state, self.held) {
            (PlannerState::Created, Some(identifier)) => Ok(Frame::AckRequested { identifier }),
            (state, _) => Err(PlannerRefusal::State(state)),
        }
    }

    // Writes no more letters: the frame to put.
    pub fn close(&mut self) -> Result<Frame, PlannerRefusal>
        ensures { acted self.new (said result) ≡ closes (source_of self.old) }
    {
        match (self.state, self.held) {
            (PlannerState::Created | PlannerState::Closing, Some(identifier)) => {
                self.state = PlannerState::Closing;
                Ok(Frame::CloseSequence {
                    identifier,
                    last: Number::new(self.written),
                })
            }
            (state, _) => Err(PlannerRefusal::State(state)),
        }
    }

    // Ends the sequence: the frame to put.
    pub fn finish(&mut self) -> Result<Frame, PlannerRefusal>
        ensures { acted self.new (said result) ≡ finishes (source_of self.old) }
    {
        match (self.state, self.held) {
            (PlannerState::Closed | PlannerState::Terminating, Some(identifier)) => {
                self.state = PlannerState::Terminating;
                Ok(Frame::TerminateSequence {
                    identifier,
                    last: Number::new(self.written),
                })
            }
            (state, _) => Err(PlannerRefusal::State(state)),
        }
    }
}
