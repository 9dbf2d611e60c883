ghost use Rattle.std.specs.Prelude.{◌≡◌};
ghost use Rattle.transport.specs.Refusals.{refusal_number};

// Why a transport refuses a call, by the number that a user sees.
// Each crate numbers its own refusals: a trait over them would need a crate below all others, for one line in each.
#[derive(Clone, Copy, PartialEq, Eq, Debug)]
pub enum TransportRefusal {
    // put: no bytes, or more than 800
    FrameSize = 9,
    // get: memory under 800 bytes
    MemorySize = 10,
}

impl TransportRefusal {
    pub fn number(self) -> u8
        ensures { result ≡ refusal_number self }
    {
        self as u8
    }
}
