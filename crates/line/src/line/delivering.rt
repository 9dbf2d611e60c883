ghost use Rattle.std.specs.Prelude.{◌≡◌, ◌+◌};
ghost use Rattle.answer.specs.declared.refusal.LineRefusal.TheVariants.{Taker};
ghost use Rattle.line.specs.Answers.{number_if};
ghost use Rattle.line.specs.Meaning.{Makes};
ghost use Rattle.office.specs.Deliveries.{delivery, delivers};
ghost use Rattle.office.specs.Seen.{seen};
ghost use Rattle.protocol.specs.Calls.{delivering};

use super::Line;
use answer::LineRefusal;
use office::Office;
use taker::Taker;
use transport::Transport;

impl<O: Transport, B: Transport, K: Taker> Line<O, B, K> {
    // Hands the next letter to the taker, if it is accepted, and answers its number.
    pub fn deliver(&mut self) -> Result<Option<u64>, LineRefusal>
        ensures { Makes O.Transport B.Transport K.Taker delivering (number_if result)
            self.old self.new }
    {
        let Some(letter) = self.office.next() else {
            return Ok(None);
        };
        match self.taker.take(letter.as_slice()) {
            Ok(()) => Ok(taken(&mut self.office)),
            Err(_) => Err(not_taken(&self.office)),
        }
    }
}

// The taker took the next letter.
fn taken(office: &mut Office) -> Option<u64>
    ensures { delivery (seen office.new) result ≡ delivers (seen office.old) }
{
    office.delivered()
}

// The taker has no page for it.
fn not_taken(office: &Office) -> LineRefusal
    ensures { result ≡ Taker ((seen office.now).delivered + 1) }
{
    LineRefusal::Taker(office.highest_delivered() + 1)
}
