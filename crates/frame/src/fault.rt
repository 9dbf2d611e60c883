use crate::bounded::Identifier;

// What the office's end complains of, and the sequence that the complaint is about.
#[derive(Clone, Copy, PartialEq, Eq, Debug)]
pub enum Fault {
    UnknownSequence(Identifier),
    SequenceTerminated(Identifier),
    SequenceClosed(Identifier),
    CreateSequenceRefused,
}
