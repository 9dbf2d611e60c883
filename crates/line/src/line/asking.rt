ghost use Rattle.std.specs.Prelude.{◌≡◌};

use super::Line;
use office::Office;
use planner::Planner;
use taker::Taker;
use transport::Transport;

// Questions change nothing.
impl<O: Transport, B: Transport, K: Taker> Line<O, B, K> {
    pub fn planner(&self) -> &Planner
        ensures { result.now ≡ self.now.planner }
    {
        &self.planner
    }

    pub fn office(&self) -> &Office
        ensures { result.now ≡ self.now.office }
    {
        &self.office
    }

    pub fn taker(&self) -> &K
        ensures { result.now ≡ self.now.taker }
    {
        &self.taker
    }
}
