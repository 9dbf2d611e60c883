ghost use Rattle.std.specs.Prelude.{◌≡◌};
ghost use Rattle.taker.specs.Refusals.{refusal_number};

// Why a taker does not take a letter.
#[derive(Clone, Copy, PartialEq, Eq, Debug)]
pub enum TakerRefusal {
    // The step gives no page for this letter.
    NoPage = 5,
}

impl TakerRefusal {
    // The refusal's number in the table of refusals.
    pub fn number(self) -> u8
        ensures { result ≡ refusal_number self }
    {
        self as u8
    }
}
