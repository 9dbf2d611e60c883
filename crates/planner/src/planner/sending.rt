ghost use Rattle.std.specs.Prelude.{◌≡◌, ◌+◌, ◌<◌, ◌≤◌, true, false, is_some, IfSome, Some, Ok, slice_index_or};
ghost use Rattle.frame.specs.Meanings.{meaning, sequence};
ghost use Rattle.letter.specs.Letters.{content};
ghost use Rattle.planner.specs.Laws.{SendsLowestDue};
ghost use Rattle.planner.specs.Sources.{acted, name, source_of};
ghost use Rattle.planner.specs.Sending.{rested, due_letter, due_of, lowest_due, sends_due, sends, sent, send_answer};
ghost use Rattle.planner.specs.Windows.{free, is_free, slot_of, waiting, window_of};
ghost use Rattle.std.specs.Option.{option_map};

use super::Planner;
use crate::refusal::PlannerRefusal;
use crate::slot::Slot;
use crate::state::PlannerState;
use frame::{Frame, Number};
use letter::Letter;

// What a send puts, and the number of its letter.
#[derive(Clone, Copy)]
pub struct Sent {
    pub number: u64,
    pub frame: Frame,
}

// The letter that is to be sent, and its place in the window.
#[derive(Clone, Copy)]
struct Due {
    place: usize,
    letter: Letter,
}

// The slot of a letter that is sent at this clock: it stays until its receipt comes.
fn once_sent(letter: Letter, clock: u64) -> Slot
    ensures { slot_of result ≡ waiting (content letter) (Some clock) }
{
    Slot::Waiting(letter, Some(clock))
}

impl Planner {
    // The lowest letter that is due at this clock: its number and the frame to put; none where none is due.
    pub fn send(&mut self, clock: u64) -> Result<Option<Sent>, PlannerRefusal>
        ensures step { acted self.new (send_answer result) ≡ sends clock (source_of self.old) }
        ensures due { SendsLowestDue }
    {
        match self.state {
            PlannerState::Created => Ok(self.send_due(clock)),
            state => Err(PlannerRefusal::State(state)),
        }
    }

    // Whether a letter that was last sent then may be sent again at this clock.
    // Compares by a difference, since the last sending and the gap may add up to more than a clock can show.
    fn is_rested(&self, clock: u64, sent: Option<u64>) -> bool
        ensures { result ≡ rested self.now.gap clock sent }
    {
        sent.is_none_or(|at| at <= clock && self.gap <= clock - at)
    }

    // The letter in the slot of number n, if it is due at this clock.
    fn due_in(&self, slot: Slot, clock: u64, n: u64) -> Option<Letter>
        ensures { option_map content result ≡ due_letter self.now.gap self.now.credit clock n (slot_of slot) }
    {
        match slot {
            Slot::Waiting(letter, sent) => {
                (n <= self.credit && self.is_rested(clock, sent)).then_some(letter)
            }
            _ => None,
        }
    }

    // The lowest letter that is due at this clock.
    fn first_due(&self, clock: u64) -> Option<Due>
        ensures value { option_map due_of result ≡ lowest_due clock (source_of self.now) }
        ensures stands { IfSome result (λ d. (d.place < 8)
            × (is_free (slice_index_or (window_of self.now.slots) d.place free) ≡ false)) }
    {
        self.slots.iter().enumerate().find_map(|(place, slot)| {
            let letter = self.due_in(*slot, clock, self.lowest + place as u64)?;
            Some(Due { place, letter })
        })
    }

    fn send_due(&mut self, clock: u64) -> Option<Sent>
        requires { is_some self.old.held ≡ true }
        ensures { acted self.new (Ok (sent result)) ≡
            sends_due (lowest_due clock (source_of self.old)) clock (source_of self.old) }
    {
        let due = self.first_due(clock)?;
        let number = self.lowest + due.place as u64;
        self.slots[due.place] = once_sent(due.letter, clock);
        let frame = self.sequence_frame(number, due.letter);
        Some(Sent { number, frame })
    }

    // The frame with this letter.
    fn sequence_frame(&self, number: u64, letter: Letter) -> Frame
        requires named { is_some self.now.held ≡ true }
        requires low { 1 ≤ number }
        requires high { number ≤ 9223372036854775807 }
        ensures { meaning result ≡ sequence (name (source_of self.now)) number (content letter) }
    {
        Frame::Sequence {
            identifier: self.held.unwrap(),
            number: Number::new(number).unwrap(),
            letter,
        }
    }
}
