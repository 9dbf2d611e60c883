ghost use Rattle.std.specs.Prelude.{◌≡◌, ◌+◌, min};
ghost use Rattle.frame.specs.Bounds.{M};
ghost use Rattle.frame.specs.Listed.{listed};
ghost use Rattle.frame.specs.Meanings.{meaning};
ghost use Rattle.office.specs.Destinations.{ranges_of, credit_of, acknowledgement, is_created};
ghost use Rattle.office.specs.Destinations.{close_response, terminate_response};
ghost use Rattle.office.specs.Seen.{seen};

use super::Office;
use crate::state::OfficeState;
use frame::{Frame, Number, Receipt};

impl Office {
    // The highest message number that has a place or had one.
    fn credit(&self) -> Number
        ensures { result.value ≡ credit_of (seen self.now) }
    {
        Number::new((self.places.delivered() + 8).min(9_223_372_036_854_775_807)).unwrap()
    }

    #[tactic(auto, using(crate::proofs::Views::ranges_seen))]
    fn receipt(&self) -> Receipt
        ensures identifier { result.identifier.value ≡ self.now.identifier.value }
        ensures ranges { listed result.ranges ≡ ranges_of (seen self.now) }
        ensures credit { result.credit.value ≡ credit_of (seen self.now) }
    {
        Receipt {
            identifier: self.identifier,
            ranges: self.places.ranges(),
            credit: self.credit(),
        }
    }

    pub(crate) fn acknowledgement(&self) -> Frame
        ensures { meaning result ≡ acknowledgement (seen self.now) }
    {
        Frame::SequenceAcknowledgement {
            receipt: self.receipt(),
            is_final: !is_created(self.state),
        }
    }

    pub(crate) fn close_response(&self) -> Frame
        ensures { meaning result ≡ close_response (seen self.now) }
    {
        Frame::CloseSequenceResponse {
            receipt: self.receipt(),
        }
    }

    pub(crate) fn terminate_response(&self) -> Frame
        ensures { meaning result ≡ terminate_response (seen self.now) }
    {
        Frame::TerminateSequenceResponse {
            receipt: self.receipt(),
        }
    }
}

fn is_created(state: OfficeState) -> bool
    ensures { result ≡ is_created state }
{
    matches!(state, OfficeState::Created)
}
