ghost use Rattle.std.specs.Prelude.{◌≡◌, ◌≤◌};
ghost use Rattle.std.specs.Option.{option_map};
ghost use Rattle.frame.specs.Bounds.{number_up_to};

// A whole number from 1 to `MOST`.
#[derive(Clone, Copy, PartialEq, Eq, Debug)]
pub struct Bounded<const MOST: u64> {
    value: u64,
    ghost low: { 1 ≤ value },
    ghost high: { value ≤ MOST },
}

// The identifier of a sequence, 1 to 4,294,967,295.
pub type Identifier = Bounded<4_294_967_295>;

// A message number or a credit, 1 to 9,223,372,036,854,775,807.
pub type Number = Bounded<9_223_372_036_854_775_807>;

impl<const MOST: u64> Bounded<MOST> {
    // The number of this value; none where it is out of bounds.
    pub fn new(value: u64) -> Option<Bounded<MOST>>
        ensures { option_map (λ n. n.value) result ≡ number_up_to MOST value }
    {
        if value < 1 || value > MOST {
            return None;
        }
        Some(Bounded { value })
    }

    pub fn get(self) -> u64
        ensures value { result ≡ self.entry.value }
        ensures most { result ≤ MOST }
    {
        self.value
    }
}
