ghost use Rattle.std.specs.Prelude.{◌≡◌};
ghost use Rattle.answer.specs.Refusals.{refusal_number};
ghost use Rattle.answer.specs.declared.refusal.LineRefusal.TheVariants.{Planner, Reader};

use pieces::ReadFault;
use planner::PlannerRefusal;

// Why a call of a line says no.
#[derive(Clone, Copy)]
pub enum LineRefusal {
    // the planner's end says no
    Planner(PlannerRefusal),
    // deliver: the taker has no page for the letter of this number
    Taker(u64),
    // read: what came is no frame
    Reader(ReadFault),
}

// What the planner's end says is passed on whole.
impl From<PlannerRefusal> for LineRefusal {
    ghost from_gives = { λ why r. r ≡ Planner why };

    fn from(why: PlannerRefusal) -> LineRefusal {
        LineRefusal::Planner(why)
    }
}

// So is the reader's fault, with its place.
impl From<ReadFault> for LineRefusal {
    ghost from_gives = { λ fault r. r ≡ Reader fault };

    fn from(fault: ReadFault) -> LineRefusal {
        LineRefusal::Reader(fault)
    }
}

impl LineRefusal {
    // The refusal's number in the table of refusals.
    pub fn number(&self) -> u8
        ensures { result ≡ refusal_number self.now }
    {
        match self {
            LineRefusal::Planner(why) => why.number(),
            LineRefusal::Taker(_) => 5,
            LineRefusal::Reader(fault) => fault.number(),
        }
    }
}
