ghost use Rattle.std.specs.Prelude.{◌≡◌, ◌&&◌, nat_le};
ghost use Rattle.std.specs.Option.{option_map};
ghost use Rattle.letter.specs.Letters.{content};
ghost use Rattle.planner.specs.Receipts.{marked};
ghost use Rattle.planner.specs.Windows.{has_receipt, slot_of};

use letter::Letter;

// How many numbers the window has.
pub(crate) const WINDOW: usize = 8;

// What stands for one number of the window.
#[derive(Clone, Copy)]
pub(crate) enum Slot {
    // no letter has this number yet
    Free,
    // a letter without a receipt, with the clock of its last sending
    Waiting(Letter, Option<u64>),
    // a receipt has come
    Receipted,
}

impl Slot {
    pub(crate) fn has_receipt(&self) -> bool
        ensures { result ≡ has_receipt (slot_of self.now) }
    {
        matches!(self, Slot::Receipted)
    }

    // The slot, where a receipt names its number or not.
    pub(crate) fn marked(self, named: bool) -> Slot
        ensures { slot_of result ≡ marked named (slot_of self) }
    {
        match self {
            Slot::Waiting(..) if named => Slot::Receipted,
            _ => self,
        }
    }
}
