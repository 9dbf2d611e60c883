ghost use Rattle.std.specs.Prelude.{◌≡◌};
ghost use Rattle.letter.specs.Refusals.{refusal_number};

// Why a letter is not made.
#[derive(Clone, Copy, PartialEq, Eq, Debug)]
pub enum LetterRefusal {
    // Its values are out of range: whoever decodes it would call it spoilt.
    Spoilt = 13,
}

impl LetterRefusal {
    // The refusal's number in the table of refusals.
    pub fn number(self) -> u8
        ensures { result ≡ refusal_number self }
    {
        self as u8
    }
}
