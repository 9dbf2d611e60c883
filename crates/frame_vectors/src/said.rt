// What a frame says, on one line.
use frame::{Fault, Frame, Identifier, Number, Range, Receipt};
use std::fmt;

#[derive(Clone, Copy)]
pub struct Said(pub Frame);

impl fmt::Display for Said {
    fn fmt<W: fmt::Write>(&self, f: &mut fmt::Formatter<W>) -> fmt::Result {
        write!(f, "frame {}", self.0.form().number())?;
        match self.0 {
            Frame::CreateSequence => Ok(()),
            Frame::CreateSequenceResponse { identifier } | Frame::AckRequested { identifier } => {
                write!(f, " {}", Id(identifier))
            }
            Frame::Sequence {
                identifier,
                number,
                letter,
            } => {
                let (id, n) = (Id(identifier), number.get());
                let letter = Digits(letter.as_slice());
                write!(f, " {id} n={n} letter={letter}")
            }
            Frame::SequenceAcknowledgement { receipt, is_final } => {
                write!(f, " {}", Received(receipt, is_final))
            }
            Frame::CloseSequence { identifier, last }
            | Frame::TerminateSequence { identifier, last } => {
                let (id, last) = (Id(identifier), last.map_or(0, Number::get));
                write!(f, " {id} last={last}")
            }
            Frame::CloseSequenceResponse { receipt }
            | Frame::TerminateSequenceResponse { receipt } => {
                write!(f, " {}", Received(receipt, true))
            }
            Frame::SequenceFault { fault } => write!(f, " {}", Complaint(fault)),
        }
    }
}

#[derive(Clone, Copy)]
struct Id(Identifier);

impl fmt::Display for Id {
    fn fmt<W: fmt::Write>(&self, f: &mut fmt::Formatter<W>) -> fmt::Result {
        write!(f, "id={}", self.0.get())
    }
}

// Bytes in hex.
#[derive(Clone, Copy)]
struct Digits<'a>(&'a [u8]);

impl fmt::Display for Digits<'_> {
    fn fmt<W: fmt::Write>(&self, f: &mut fmt::Formatter<W>) -> fmt::Result {
        self.0.iter().try_for_each(|b| write!(f, "{b:02X}"))
    }
}

// A receipt, and whether it is final.
#[derive(Clone, Copy)]
struct Received(Receipt, bool);

impl fmt::Display for Received {
    fn fmt<W: fmt::Write>(&self, f: &mut fmt::Formatter<W>) -> fmt::Result {
        let Received(receipt, is_final) = *self;
        let id = Id(receipt.identifier);
        let ranges = Spans(receipt.ranges.as_slice());
        let last = if is_final { "yes" } else { "no" };
        let credit = receipt.credit.get();
        write!(f, "{id} ranges={ranges} final={last} credit={credit}")
    }
}

// Ranges, from the lowest on.
#[derive(Clone, Copy)]
struct Spans<'a>(&'a [Range]);

impl fmt::Display for Spans<'_> {
    fn fmt<W: fmt::Write>(&self, f: &mut fmt::Formatter<W>) -> fmt::Result {
        let [first, others @ ..] = self.0 else {
            return write!(f, "none");
        };
        write!(f, "{}-{}", first.lower, first.upper)?;
        for range in others {
            write!(f, ",{}-{}", range.lower, range.upper)?;
        }
        Ok(())
    }
}

// A fault's name, and the sequence that it is about.
#[derive(Clone, Copy)]
struct Complaint(Fault);

impl fmt::Display for Complaint {
    fn fmt<W: fmt::Write>(&self, f: &mut fmt::Formatter<W>) -> fmt::Result {
        match self.0 {
            Fault::UnknownSequence(i) => write!(f, "UnknownSequence {}", Id(i)),
            Fault::SequenceTerminated(i) => write!(f, "SequenceTerminated {}", Id(i)),
            Fault::SequenceClosed(i) => write!(f, "SequenceClosed {}", Id(i)),
            Fault::CreateSequenceRefused => write!(f, "CreateSequenceRefused"),
        }
    }
}
