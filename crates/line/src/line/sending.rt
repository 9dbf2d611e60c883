ghost use Rattle.line.specs.Answers.{number_if};
ghost use Rattle.line.specs.Meaning.{Makes};
ghost use Rattle.protocol.specs.Calls.{sending};

use super::Line;
use crate::frames::put_frame;
use answer::LineRefusal;
use taker::Taker;
use transport::Transport;

impl<O: Transport, B: Transport, K: Taker> Line<O, B, K> {
    // Sends the lowest letter that is due at this clock, and answers its number; none where none is due.
    pub fn send(&mut self, clock: u64) -> Result<Option<u64>, LineRefusal>
        ensures { Makes O.Transport B.Transport K.Taker (sending clock) (number_if result)
            self.old self.new }
    {
        let Some(sent) = self.planner.send(clock)? else {
            return Ok(None);
        };
        put_frame(&mut self.outward, &sent.frame);
        Ok(Some(sent.number))
    }
}
