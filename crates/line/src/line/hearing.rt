ghost use Rattle.line.specs.Answers.{form_if};
ghost use Rattle.line.specs.Carrying.{HearsBytes};
ghost use Rattle.line.specs.Meaning.{Makes};
ghost use Rattle.protocol.specs.Calls.{hearing};

use super::Line;
use crate::frames::get_frame;
use answer::LineRefusal;
use frame::Form;
use taker::Taker;
use transport::{FRAME_MOST, Transport};

impl<O: Transport, B: Transport, K: Taker> Line<O, B, K> {
    // Gets one frame that came back, and has the planner's end hear it: its form, or none where none came.
    pub fn hear(&mut self) -> Result<Option<Form>, LineRefusal>
        ensures { Makes O.Transport B.Transport K.Taker hearing (form_if result)
            self.old self.new }
    {
        let mut memory = [0; FRAME_MOST];
        let Some(bytes) = get_frame(&mut self.back, &mut memory) else {
            return Ok(None);
        };
        self.hear_bytes(bytes)
    }

    // What is done with the bytes stands apart here and in `read`: a helper for both that takes it as a closure would
    // have to say what the closure changes of the line.
    fn hear_bytes(&mut self, bytes: &[u8]) -> Result<Option<Form>, LineRefusal>
        ensures { HearsBytes O.Transport B.Transport K.Taker bytes.now (form_if result)
            self.old self.new }
    {
        Ok(Some(self.planner.hear(bytes)?))
    }
}
