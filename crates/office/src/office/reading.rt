ghost use Rattle.std.specs.Prelude.{◌≡◌, Some};
ghost use Rattle.std.specs.Option.{option_map};
ghost use Rattle.frame.specs.Meanings.{meaning, fault_meaning, sequence_fault};
ghost use Rattle.grammar.specs.Grammar.{reading};
ghost use Rattle.office.specs.Laws.{Lawful};
ghost use Rattle.office.specs.Reads.{stranger, heeds, takes, step, reads_seen, last_of, on_admits};
ghost use Rattle.office.specs.Seen.{seen, read_as};

use super::Office;
use crate::answer::ReadAnswer;
use crate::state::OfficeState;
use frame::{Fault, Frame, Identifier, Number};
use frame_reader::ReadFault;

impl Office {
    // Reads the bytes of a frame: answers its form and the frame to put back, if any.
    // Bytes that are no frame change nothing.
    pub fn read(&mut self, bytes: &[u8]) -> Result<ReadAnswer, ReadFault>
        ensures value { read_as self.new result
            ≡ reads_seen (seen self.old) (reading bytes.now) }
        ensures lawful { Lawful (seen self.old) (read_as self.new result) }
    {
        let frame = frame_reader::read(bytes)?;
        Ok(ReadAnswer {
            form: frame.form(),
            reply: self.reply(frame),
        })
    }

    // What the office's end does with any frame.
    fn reply(&mut self, frame: Frame) -> Option<Frame>
        ensures { step (seen self.new) (option_map meaning result)
            ≡ takes (seen self.old) (meaning frame) }
    {
        match self.stranger(&frame) {
            Some(identifier) => Some(fault(Fault::UnknownSequence(identifier))),
            None => self.heed(frame),
        }
    }

    // The identifier by which a frame asks for another sequence than this one.
    fn stranger(&self, frame: &Frame) -> Option<Identifier>
        ensures { option_map (λ i. i.value) result
            ≡ stranger (seen self.now) (meaning frame.now) }
    {
        match frame {
            Frame::Sequence { identifier, .. }
            | Frame::AckRequested { identifier }
            | Frame::CloseSequence { identifier, .. }
            | Frame::TerminateSequence { identifier, .. } => {
                if *identifier == self.identifier {
                    None
                } else {
                    Some(*identifier)
                }
            }
            _ => None,
        }
    }

    // What the state makes of a frame that names no other sequence.
    fn heed(&mut self, frame: Frame) -> Option<Frame>
        ensures { step (seen self.new) (option_map meaning result)
            ≡ heeds (seen self.old) (meaning frame) }
    {
        match (self.state, frame) {
            (OfficeState::None, Frame::CreateSequence) => Some(self.admit()),
            (OfficeState::Created, Frame::CreateSequence) => Some(Frame::CreateSequenceResponse {
                identifier: self.identifier,
            }),
            (OfficeState::Closed | OfficeState::Terminated, Frame::CreateSequence) => {
                Some(fault(Fault::CreateSequenceRefused))
            }
            (
                OfficeState::None,
                Frame::Sequence { identifier, .. }
                | Frame::AckRequested { identifier }
                | Frame::CloseSequence { identifier, .. }
                | Frame::TerminateSequence { identifier, .. },
            ) => Some(fault(Fault::UnknownSequence(identifier))),
            (OfficeState::Created, Frame::Sequence { number, letter, .. }) => {
                self.accept(number, letter);
                Some(self.acknowledgement())
            }
            (OfficeState::Closed, Frame::Sequence { identifier, .. }) => {
                Some(fault(Fault::SequenceClosed(identifier)))
            }
            (OfficeState::Created | OfficeState::Closed, Frame::AckRequested { .. }) => {
                Some(self.acknowledgement())
            }
            (OfficeState::Created, Frame::CloseSequence { last, .. }) => {
                self.state = OfficeState::Closed;
                self.last = last;
                Some(self.close_response())
            }
            // The first LastMsgNumber stays.
            (OfficeState::Closed, Frame::CloseSequence { .. }) => Some(self.close_response()),
            (OfficeState::Created, Frame::TerminateSequence { last, .. }) => {
                self.state = OfficeState::Terminated;
                self.last = last;
                Some(self.terminate_response())
            }
            (OfficeState::Closed, Frame::TerminateSequence { .. }) => {
                self.state = OfficeState::Terminated;
                Some(self.terminate_response())
            }
            (OfficeState::Terminated, Frame::TerminateSequence { .. }) => {
                Some(self.terminate_response())
            }
            (
                OfficeState::Terminated,
                Frame::Sequence { identifier, .. }
                | Frame::AckRequested { identifier }
                | Frame::CloseSequence { identifier, .. },
            ) => Some(fault(Fault::SequenceTerminated(identifier))),
            // What an office's end says itself, it ignores.
            (
                _,
                Frame::CreateSequenceResponse { .. }
                | Frame::SequenceAcknowledgement { .. }
                | Frame::CloseSequenceResponse { .. }
                | Frame::TerminateSequenceResponse { .. }
                | Frame::SequenceFault { .. },
            ) => None,
        }
    }

    // Answers the first CreateSequence.
    fn admit(&mut self) -> Frame
        ensures { step (seen self.new) (option_map meaning (Some result))
            ≡ on_admits self.old.admits (seen self.old) }
    {
        if self.admits {
            self.state = OfficeState::Created;
            Frame::CreateSequenceResponse {
                identifier: self.identifier,
            }
        } else {
            fault(Fault::CreateSequenceRefused)
        }
    }
}

fn fault(fault: Fault) -> Frame
    ensures { meaning result ≡ sequence_fault (fault_meaning fault) }
{
    Frame::SequenceFault { fault }
}

// The LastMsgNumber, 0 if there is none.
pub(super) fn last_of(last: Option<Number>) -> u64
    ensures { result ≡ last_of (option_map (λ m. m.value) last) }
{
    last.map_or(0, Number::get)
}
