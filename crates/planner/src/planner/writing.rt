ghost use Rattle.std.specs.Prelude.{◌≡◌, ◌+◌, ◌≤◌, IfOk, IfErr};
ghost use Rattle.letter.specs.Changes.{encoded};
ghost use Rattle.letter.specs.Letters.{content};
ghost use Rattle.letter.specs.declared.change.Change.TheVariants.{Put};
ghost use Rattle.planner.specs.Sources.{acted, source_of};
ghost use Rattle.planner.specs.Writing.{adds, next_number, writes, posts, post_answer};

use super::Planner;
use crate::draft::Draft;
use crate::refusal::PlannerRefusal;
use crate::slot::Slot;
use crate::state::PlannerState;
use letter::Letter;

impl Planner {
    // Gives the letter of these bytes the next number, and answers that.
    pub fn write(&mut self, bytes: &[u8]) -> Result<u64, PlannerRefusal>
        ensures { acted self.new result ≡
            writes bytes.now (source_of self.old) }
    {
        match self.state {
            PlannerState::Created => {
                let letter = Letter::new(bytes).ok_or(PlannerRefusal::LetterSize)?;
                self.add(letter)
            }
            state => Err(PlannerRefusal::State(state)),
        }
    }

    // Gives the draft's letter the next number, and answers that; a refusal hands the same draft back.
    pub fn post(&mut self, draft: Draft) -> Result<u64, (PlannerRefusal, Draft)>
        ensures value { acted self.new (post_answer result) ≡
            posts (encoded (Put draft.path)) (source_of self.old) }
        ensures back { IfErr result (λ e. e.1 ≡ draft) }
    {
        match self.add_draft(draft.letter()) {
            Ok(number) => {
                draft.tear();
                Ok(number)
            }
            Err(why) => Err((why, draft)),
        }
    }

    fn add_draft(&mut self, letter: Letter) -> Result<u64, PlannerRefusal>
        ensures { acted self.new result ≡ posts (content letter) (source_of self.old) }
    {
        match self.state {
            PlannerState::Created => self.add(letter),
            state => Err(PlannerRefusal::State(state)),
        }
    }

    // Gives the letter the next number, if there is one and the window has room.
    fn add(&mut self, letter: Letter) -> Result<u64, PlannerRefusal>
        ensures { acted self.new result ≡ adds (content letter) (source_of self.old) }
    {
        let number = self.next_number()?;
        self.slots[(number - self.lowest) as usize] = Slot::Waiting(letter, None);
        self.written = number;
        Ok(number)
    }

    fn next_number(&self) -> Result<u64, PlannerRefusal>
        ensures value { result ≡ next_number (source_of self.now) }
        ensures bounds { IfOk result (λ n. (n ≡ self.now.written + 1)
            × (n ≤ self.now.limit) × (n ≤ self.now.lowest + 7)) }
    {
        if self.written == self.limit {
            return Err(PlannerRefusal::Limit);
        }
        let number = self.written + 1;
        if number > self.lowest + 7 {
            return Err(PlannerRefusal::Window(self.lowest));
        }
        Ok(number)
    }
}
