ghost use Rattle.std.specs.Prelude.{◌≡◌, ◌≤◌, ◌==◌, true, cond, is_some, Ok, Option};
ghost use Rattle.frame.specs.Forms.{form_of};
ghost use Rattle.frame.specs.Listed.{listed};
ghost use Rattle.frame.specs.Numbers.{Identifier};
ghost use Rattle.frame.specs.Meanings.{meaning, fault_meaning};
ghost use Rattle.grammar.specs.Grammar.{reading};
ghost use Rattle.planner.specs.Hearing.{about, about_fault, after_fault, created, if_creating, heeds, hears, hears_read, is_held, takes};
ghost use Rattle.planner.specs.Sources.{acted, source_of};
ghost use Rattle.planner.specs.States.{named, rank};
ghost use Rattle.std.specs.Option.{option_map};
ghost use Rattle.std.specs.Result.{result_and};
ghost use Rattle.frame.specs.declared.form.Form.{Form};

use super::Planner;
use super::receipts::{front_of, mark_all, slide, upper_above};
use crate::refusal::PlannerRefusal;
use crate::state::PlannerState;
use frame::{Fault, Form, Frame, Identifier, Receipt};
use frame_reader::read;

impl Planner {
    // Hears the bytes that came back, whatever they are: answers the form of the frame that they are.
    pub fn hear(&mut self, bytes: &[u8]) -> Result<Form, PlannerRefusal>
        ensures { acted self.new result ≡
            hears_read (reading bytes.now) (source_of self.old) }
    {
        let frame = read(bytes)?;
        self.hear_frame(frame)
    }

    // Heeds a frame that came back; refuses one about another sequence.
    fn hear_frame(&mut self, frame: Frame) -> Result<Form, PlannerRefusal>
        ensures { acted self.new result ≡ hears (meaning frame) (source_of self.old) }
    {
        match about_sequence(frame) {
            Some(identifier) if !self.holds(identifier) => {
                Err(PlannerRefusal::Identifier(identifier.get() as u32))
            }
            _ => self.heed(frame),
        }
    }

    fn holds(&self, identifier: Identifier) -> bool
        ensures value { result ≡ is_held (option_map (λ i. i.value) self.now.held) identifier.value }
        ensures created { result ≡ true → 2 ≤ rank self.now.state }
    {
        self.held == Some(identifier)
    }

    // What the end makes of the frame, by its form.
    fn heed(&mut self, frame: Frame) -> Result<Form, PlannerRefusal>
        requires { is_some (about (meaning frame)) ≡ true → 2 ≤ rank self.old.state }
        ensures { acted self.new result ≡ heeds (meaning frame) (source_of self.old) }
    {
        match frame {
            Frame::CreateSequenceResponse { identifier } => self.create(identifier),
            Frame::SequenceAcknowledgement { receipt, .. } => self.receive(receipt, self.state)?,
            Frame::CloseSequenceResponse { receipt } => {
                let next = moved(self.state, PlannerState::Closing, PlannerState::Closed);
                self.receive(receipt, next)?;
            }
            Frame::TerminateSequenceResponse { receipt } => {
                let next = moved(self.state, PlannerState::Terminating, PlannerState::Ended);
                self.receive(receipt, next)?;
            }
            Frame::SequenceFault { fault } => self.heed_fault(fault),
            _ => {}
        }
        Ok(frame.form())
    }

    // The sequence is created, if it was asked for.
    fn create(&mut self, identifier: Identifier)
        ensures { source_of self.new ≡ if_creating
            (created identifier.value (source_of self.old)) (source_of self.old) }
    {
        if self.state == PlannerState::Creating {
            self.state = PlannerState::Created;
            self.held = Some(identifier);
            self.credit = 8;
        }
    }

    // What the state and a fault make of each other.
    fn heed_fault(&mut self, fault: Fault)
        ensures { source_of self.new ≡
            after_fault (fault_meaning fault) (source_of self.old) }
    {
        match (self.state, fault) {
            (PlannerState::Creating, Fault::CreateSequenceRefused) => {
                self.state = PlannerState::None;
            }
            (PlannerState::Created | PlannerState::Closing, Fault::SequenceClosed(_)) => {
                self.state = PlannerState::Closed;
            }
            (
                PlannerState::Created
                | PlannerState::Closing
                | PlannerState::Closed
                | PlannerState::Terminating,
                Fault::UnknownSequence(_) | Fault::SequenceTerminated(_),
            ) => {
                self.state = PlannerState::Ended;
            }
            _ => {}
        }
    }

    // Marks the receipts, moves the window past those in front, and goes on to the next state.
    fn receive(&mut self, receipt: Receipt, next: PlannerState) -> Result<(), PlannerRefusal>
        requires known { named next self.old.held ≡ true }
        requires created { 2 ≤ rank next }
        ensures { (form : Form) → acted self.new (result_and result (Ok form)) ≡
            takes form (listed receipt.ranges) receipt.credit.value next (source_of self.old) }
    {
        let ranges = receipt.ranges.as_slice();
        if let Some(upper) = upper_above(ranges, self.written) {
            return Err(PlannerRefusal::Upper(upper));
        }
        mark_all(&mut self.slots, self.lowest, ranges);
        let by = front_of(&self.slots);
        slide(&mut self.slots, by);
        self.lowest += by as u64;
        self.credit = self.credit.max(receipt.credit.get());
        self.state = next;
        Ok(())
    }
}

// The state that follows this one, where `from` leads to `to` and every other state stays.
fn moved(state: PlannerState, from: PlannerState, to: PlannerState) -> PlannerState
    requires created { 2 ≤ rank from }
    requires forward { rank from ≤ rank to }
    ensures value { result ≡ cond (rank state == rank from) to state }
    ensures known { (held : Option Identifier) → named result held ≡ named state held }
    ensures later { rank state ≤ rank result }
{
    if state == from { to } else { state }
}

// The sequence that the frame is about, where the planner's end has to hold its identifier.
fn about_sequence(frame: Frame) -> Option<Identifier>
    ensures { option_map (λ i. i.value) result ≡ about (meaning frame) }
{
    match frame {
        Frame::SequenceAcknowledgement { receipt, .. }
        | Frame::CloseSequenceResponse { receipt }
        | Frame::TerminateSequenceResponse { receipt } => Some(receipt.identifier),
        Frame::SequenceFault { fault } => about_fault(fault),
        _ => None,
    }
}

fn about_fault(fault: Fault) -> Option<Identifier>
    ensures { option_map (λ i. i.value) result ≡ about_fault (fault_meaning fault) }
{
    match fault {
        Fault::UnknownSequence(identifier)
        | Fault::SequenceTerminated(identifier)
        | Fault::SequenceClosed(identifier) => Some(identifier),
        Fault::CreateSequenceRefused => None,
    }
}
