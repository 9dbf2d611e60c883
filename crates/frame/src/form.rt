ghost use Rattle.std.specs.Prelude.{◌≡◌};
ghost use Rattle.frame.specs.Forms.{form_number};

// The ten forms of a frame, each with its number.
#[derive(Clone, Copy, PartialEq, Eq, Debug)]
pub enum Form {
    CreateSequence = 1,
    CreateSequenceResponse = 2,
    Sequence = 3,
    AckRequested = 4,
    SequenceAcknowledgement = 5,
    CloseSequence = 6,
    CloseSequenceResponse = 7,
    TerminateSequence = 8,
    TerminateSequenceResponse = 9,
    SequenceFault = 10,
}

impl Form {
    pub fn number(self) -> u8
        ensures { result ≡ form_number self }
    {
        self as u8
    }
}
