ghost use Rattle.std.specs.Prelude.{◌≡◌};
ghost use Rattle.frame.specs.Forms.{form_of};
ghost use Rattle.frame.specs.Meanings.{meaning};

use crate::bounded::{Identifier, Number};
use crate::fault::Fault;
use crate::form::Form;
use crate::ranges::Ranges;
use letter::Letter;

// What the office's end has accepted, and up to which number it has places.
#[derive(Clone, Copy)]
pub struct Receipt {
    pub identifier: Identifier,
    pub ranges: Ranges,
    pub credit: Number,
}

// A frame. No value of this type is out of bounds: its parts see to that.
#[derive(Clone, Copy)]
pub enum Frame {
    CreateSequence,
    CreateSequenceResponse {
        identifier: Identifier,
    },
    Sequence {
        identifier: Identifier,
        number: Number,
        letter: Letter,
    },
    AckRequested {
        identifier: Identifier,
    },
    SequenceAcknowledgement {
        receipt: Receipt,
        is_final: bool,
    },
    CloseSequence {
        identifier: Identifier,
        last: Option<Number>,
    },
    CloseSequenceResponse {
        receipt: Receipt,
    },
    TerminateSequence {
        identifier: Identifier,
        last: Option<Number>,
    },
    TerminateSequenceResponse {
        receipt: Receipt,
    },
    SequenceFault {
        fault: Fault,
    },
}

impl Frame {
    pub fn form(&self) -> Form
        ensures { result ≡ form_of (meaning self.now) }
    {
        match self {
            Frame::CreateSequence => Form::CreateSequence,
            Frame::CreateSequenceResponse { .. } => Form::CreateSequenceResponse,
            Frame::Sequence { .. } => Form::Sequence,
            Frame::AckRequested { .. } => Form::AckRequested,
            Frame::SequenceAcknowledgement { .. } => Form::SequenceAcknowledgement,
            Frame::CloseSequence { .. } => Form::CloseSequence,
            Frame::CloseSequenceResponse { .. } => Form::CloseSequenceResponse,
            Frame::TerminateSequence { .. } => Form::TerminateSequence,
            Frame::TerminateSequenceResponse { .. } => Form::TerminateSequenceResponse,
            Frame::SequenceFault { .. } => Form::SequenceFault,
        }
    }
}
