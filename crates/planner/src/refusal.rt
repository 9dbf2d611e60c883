ghost use Rattle.std.specs.Prelude.{◌≡◌};
ghost use Rattle.planner.specs.Refusals.{refusal_number};
ghost use Rattle.planner.specs.declared.refusal.PlannerRefusal.TheVariants.{Reader};

use crate::state::PlannerState;
use pieces::ReadFault;

// Why the planner's end says no.
#[derive(Clone, Copy, PartialEq, Eq, Debug)]
pub enum PlannerRefusal {
    // write: no bytes, or more than 48
    LetterSize,
    // the call is not for this state
    State(PlannerState),
    // write, post: the limit's number is written
    Limit,
    // write, post: the window is full; this is the lowest number without a receipt
    Window(u64),
    // hear: the bytes are no frame
    Reader(ReadFault),
    // hear: another sequence's identifier
    Identifier(u32),
    // hear: a receipt for a number that was never written, the first such Upper
    Upper(u64),
}

// A fault of the reader is passed on whole.
impl From<ReadFault> for PlannerRefusal {
    ghost from_gives = { λ fault r. r ≡ Reader fault };

    fn from(fault: ReadFault) -> PlannerRefusal {
        PlannerRefusal::Reader(fault)
    }
}

impl PlannerRefusal {
    // The refusal's number in the table of refusals. A match, since variants with values cannot be cast.
    pub fn number(&self) -> u8
        ensures { result ≡ refusal_number self.now }
    {
        match self {
            PlannerRefusal::LetterSize => 1,
            PlannerRefusal::State(_) => 2,
            PlannerRefusal::Limit => 3,
            PlannerRefusal::Window(_) => 4,
            PlannerRefusal::Reader(_) => 6,
            PlannerRefusal::Identifier(_) => 7,
            PlannerRefusal::Upper(_) => 8,
        }
    }
}
