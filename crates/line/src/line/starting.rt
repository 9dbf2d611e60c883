ghost use Rattle.std.specs.Prelude.{◌≡◌};
ghost use Rattle.line.specs.Starting.{Started};
ghost use Rattle.office.specs.Destinations as office;
ghost use Rattle.office.specs.Seen.{seen};

use super::Line;
use office::Office;
use planner::{Planner, Settings};
use taker::Taker;
use transport::Transport;

impl<O: Transport, B: Transport, K: Taker> Line<O, B, K> {
    // A line that has opened nothing, over these transports, with what waits in them, and this taker.
    pub fn new(settings: &Settings, outward: O, back: B, taker: K) -> Line<O, B, K>
        ensures { Started O.Transport B.Transport K.Taker settings.now outward back taker result }
    {
        Line {
            planner: Planner::new(settings),
            office: office_of(settings),
            outward,
            back,
            taker,
        }
    }
}

fn office_of(settings: &Settings) -> Office
    ensures { seen result ≡ office.fresh settings.now.identifier.value settings.now.admits }
{
    Office::new(settings.identifier(), settings.admits())
}
