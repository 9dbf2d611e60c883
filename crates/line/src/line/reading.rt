ghost use Rattle.line.specs.Answers.{form_if};
ghost use Rattle.line.specs.Carrying.{ReadsBytes};
ghost use Rattle.line.specs.Meaning.{Makes};
ghost use Rattle.protocol.specs.Calls.{reading};

use super::Line;
use crate::frames::{get_frame, put_frame};
use answer::LineRefusal;
use frame::Form;
use taker::Taker;
use transport::{FRAME_MOST, Transport};

impl<O: Transport, B: Transport, K: Taker> Line<O, B, K> {
    // Gets one frame that came, has the office's end read it, and puts its answer back:
    // the frame's form, or none where none came.
    pub fn read(&mut self) -> Result<Option<Form>, LineRefusal>
        ensures { Makes O.Transport B.Transport K.Taker reading (form_if result)
            self.old self.new }
    {
        let mut memory = [0; FRAME_MOST];
        let Some(bytes) = get_frame(&mut self.outward, &mut memory) else {
            return Ok(None);
        };
        self.read_bytes(bytes)
    }

    fn read_bytes(&mut self, bytes: &[u8]) -> Result<Option<Form>, LineRefusal>
        ensures { ReadsBytes O.Transport B.Transport K.Taker bytes.now (form_if result)
            self.old self.new }
    {
        let answer = self.office.read(bytes)?;
        if let Some(reply) = answer.reply {
            put_frame(&mut self.back, &reply);
        }
        Ok(Some(answer.form))
    }
}
