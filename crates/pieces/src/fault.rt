ghost use Rattle.std.specs.Prelude.{◌≡◌};
ghost use Rattle.pieces.specs.Refusals.{refusal_number};

// That bytes are no frame: the place of the first piece that no form allows there, or the length
// where the bytes end early.
#[derive(Clone, Copy, PartialEq, Eq, Debug)]
pub struct ReadFault {
    pub place: usize,
}

impl ReadFault {
    // The number of this refusal.
    pub fn number(self) -> u8
        ensures { result ≡ refusal_number self }
    {
        6
    }
}
