ghost use Rattle.std.specs.Prelude.{◌≡◌};
ghost use Rattle.planner.specs.Laws.{IsLowest, CreditNeverFalls, MovesAlongArrows, ReceiptsStay, Sound, Uncreated, receipted};
ghost use Rattle.planner.specs.Sources.{source_of};
ghost use Rattle.planner.specs.Starting.{fresh};
ghost use Rattle.planner.specs.Windows.{free, has_receipt, slot_of, window_of};

use super::Planner;
use crate::settings::Settings;
use crate::slot::{Slot, WINDOW};
use crate::state::PlannerState;
use frame::Identifier;

impl Planner {
    // A planner's end that has opened nothing.
    pub fn new(settings: &Settings) -> Planner
        ensures { source_of result ≡ fresh settings.now.gap settings.now.limit.value }
    {
        Planner {
            state: PlannerState::None,
            held: None,
            gap: settings.gap(),
            limit: settings.limit().get(),
            written: 0,
            lowest: 1,
            credit: 0,
            slots: [Slot::Free; WINDOW],
        }
    }

    pub fn state(&self) -> PlannerState
        ensures value { result ≡ (source_of self.now).state }
        ensures moves { MovesAlongArrows }
    {
        self.state
    }

    // The identifier of the sequence that was created.
    pub fn identifier(&self) -> Option<Identifier>
        ensures { result ≡ self.now.held }
    {
        self.held
    }

    // The highest number written.
    pub fn written(&self) -> u64
        ensures { result ≡ (source_of self.now).written }
    {
        self.written
    }

    // Letters up to this number may be sent.
    pub fn credit(&self) -> u64
        ensures value { result ≡ (source_of self.now).credit }
        ensures grows { CreditNeverFalls }
    {
        self.credit
    }

    // The lowest number without a receipt.
    pub fn lowest(&self) -> u64
        ensures value { result ≡ (source_of self.now).lowest }
        ensures law { IsLowest (source_of self.now) result }
    {
        self.lowest
    }

    // Whether number n has a receipt.
    pub fn has_receipt(&self, n: u64) -> bool
        ensures value { result ≡ receipted (source_of self.now) n }
        ensures stays { ReceiptsStay }
        ensures sound { Sound (source_of self.now) }
        ensures begun { Uncreated (source_of self.now) }
    {
        self.is_marked(n)
    }

    // The value of `has_receipt`, apart from the laws that it also promises.
    fn is_marked(&self, n: u64) -> bool
        ensures { result ≡ receipted (source_of self.now) n }
    {
        n < self.lowest
            || matches!(
                self.slots.get((n - self.lowest) as usize),
                Some(Slot::Receipted)
            )
    }
}
