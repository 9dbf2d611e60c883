ghost use Rattle.std.specs.Prelude.{◌≡◌, IfErr};
ghost use Rattle.line.specs.Answers.{number, posted};
ghost use Rattle.line.specs.Meaning.{Makes};
ghost use Rattle.protocol.specs.Calls.{writing, posting};

use super::Line;
use answer::LineRefusal;
use planner::Draft;
use taker::Taker;
use transport::Transport;

impl<O: Transport, B: Transport, K: Taker> Line<O, B, K> {
    // Gives the letter of these bytes the next number, and answers that.
    // That these are bytes, as the step asks, is known by their type.
    #[tactic(auto, using(frame_writer::proofs::Written::all_bytes))]
    pub fn write(&mut self, bytes: &[u8]) -> Result<u64, LineRefusal>
        ensures { Makes O.Transport B.Transport K.Taker (writing bytes.now) (number result)
            self.old self.new }
    {
        Ok(self.planner.write(bytes)?)
    }

    // Gives the draft's letter the next number, and answers that; a refusal hands the same draft back.
    pub fn post(&mut self, draft: Draft) -> Result<u64, (LineRefusal, Draft)>
        ensures step { Makes O.Transport B.Transport K.Taker (posting draft.path) (posted result)
            self.old self.new }
        ensures back { IfErr result (λ e. e.1 ≡ draft) }
    {
        self.planner
            .post(draft)
            .map_err(|(why, draft)| (why.into(), draft))
    }
}
