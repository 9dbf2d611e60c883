// Whole frames, by their form.
ghost use Rattle.std.specs.Prelude.{◌≤◌, length};
ghost use Rattle.frame.specs.Meanings.{meaning, LetterFits};
ghost use Rattle.frame_writer.specs.Putting.{Puts, Writes};
ghost use Rattle.grammar.specs.Texts.{text};

use crate::parts::{Acknowledgement, hex, last_number};
use crate::text::{Enclosed, Text};
use frame::Frame;
use pieces::{Element, Tag};

// Writes the text of the frame into the front of `out`, and answers its length.
#[tactic(auto, using(crate::proofs::Lengths::most_of_frame))]
pub fn write(frame: &Frame, out: &mut [u8; 800]) -> usize
    ensures { Writes (meaning frame.now) out.old out.new result }
{
    put_frame(*frame, out)
}

// The same for memory in which there is room.
#[tactic(auto, unfolding(grammar::specs::Texts::text))]
fn put_frame(frame: Frame, out: &mut [u8]) -> usize
    requires { length (text (meaning frame)) ≤ length out.old }
    ensures puts { Puts out.old (text (meaning frame)) out.new result }
    ensures fits { LetterFits (meaning frame) }
{
    match frame {
        Frame::CreateSequence => Tag::Empty(Element::CreateSequence).put(out),
        Frame::CreateSequenceResponse { identifier } => {
            Enclosed(Element::CreateSequenceResponse, identifier).put(out)
        }
        Frame::Sequence {
            identifier,
            number,
            letter,
        } => {
            let number = Enclosed(Element::MessageNumber, number);
            let sequence = Enclosed(Element::Sequence, (identifier, number));
            (sequence, Enclosed(Element::Letter, hex(letter.as_slice()))).put(out)
        }
        Frame::AckRequested { identifier } => {
            Enclosed(Element::AckRequested, identifier).put(out)
        }
        Frame::SequenceAcknowledgement { receipt, is_final } => {
            Acknowledgement(receipt, is_final).put(out)
        }
        Frame::CloseSequence { identifier, last } => {
            Enclosed(Element::CloseSequence, (identifier, last_number(last))).put(out)
        }
        Frame::CloseSequenceResponse { receipt } => {
            let closed = Enclosed(Element::CloseSequenceResponse, receipt.identifier);
            (Acknowledgement(receipt, true), closed).put(out)
        }
        Frame::TerminateSequence { identifier, last } => {
            Enclosed(Element::TerminateSequence, (identifier, last_number(last))).put(out)
        }
        Frame::TerminateSequenceResponse { receipt } => {
            let terminated = Enclosed(Element::TerminateSequenceResponse, receipt.identifier);
            (Acknowledgement(receipt, true), terminated).put(out)
        }
        Frame::SequenceFault { fault } => Enclosed(Element::SequenceFault, fault).put(out),
    }
}
