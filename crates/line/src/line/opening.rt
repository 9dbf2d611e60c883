ghost use Rattle.line.specs.Answers.{done};
ghost use Rattle.line.specs.Carrying.{Says};
ghost use Rattle.line.specs.Meaning.{Makes};
ghost use Rattle.planner.specs.Sources.{said as said_of};
ghost use Rattle.protocol.specs.Calls.{opening, asking, closing, finishing};

use super::Line;
use crate::frames::put_frame;
use answer::LineRefusal;
use frame::Frame;
use planner::PlannerRefusal;
use taker::Taker;
use transport::Transport;

impl<O: Transport, B: Transport, K: Taker> Line<O, B, K> {
    // Asks the office for a sequence.
    pub fn open(&mut self) -> Result<(), LineRefusal>
        ensures { Makes O.Transport B.Transport K.Taker opening (done result)
            self.old self.new }
    {
        put_said(&mut self.outward, self.planner.open())
    }

    // Asks the office for a receipt.
    pub fn ask(&mut self) -> Result<(), LineRefusal>
        ensures { Makes O.Transport B.Transport K.Taker asking (done result)
            self.old self.new }
    {
        put_said(&mut self.outward, self.planner.ask())
    }

    // Writes no more letters, and says so.
    pub fn close(&mut self) -> Result<(), LineRefusal>
        ensures { Makes O.Transport B.Transport K.Taker closing (done result)
            self.old self.new }
    {
        put_said(&mut self.outward, self.planner.close())
    }

    // Ends the sequence, and says so.
    pub fn finish(&mut self) -> Result<(), LineRefusal>
        ensures { Makes O.Transport B.Transport K.Taker finishing (done result)
            self.old self.new }
    {
        put_said(&mut self.outward, self.planner.finish())
    }
}

// Puts the frame that the planner's end says, or passes its refusal on.
fn put_said<T: Transport>(
    transport: &mut T,
    said: Result<Frame, PlannerRefusal>,
) -> Result<(), LineRefusal>
    ensures { Says T.Transport.depth (T.Transport.waiting transport.old) (said_of said) (done result)
        (T.Transport.waiting transport.new) }
{
    put_frame(transport, &said?);
    Ok(())
}
