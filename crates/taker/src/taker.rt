ghost use Rattle.std.specs.Prelude.{◌≡◌, ℕ, false, List, None, Option};
ghost use Rattle.letter.specs.Letters.{is_letter};
ghost use Rattle.taker.specs.Steps.{Takes};

use crate::refusal::TakerRefusal;

// What letters are handed over to, one after another.
// Its meaning is its page, a list of whole numbers, and its step,
// which gives for a page and a letter the next page or none, alike at all times.
pub trait Taker {
    ghost page: { Self → List ℕ };

    ghost step: { List ℕ → List ℕ → Option (List ℕ) };

    // Makes the step; refuses exactly where it gives no page, and then leaves the page.
    fn take(&mut self, letter: &[u8]) -> Result<(), TakerRefusal>
        ensures { Takes step (page self.old) letter.now result (page self.new) };

    ghost sized: { (before bytes : List ℕ) → is_letter bytes ≡ false → step before bytes ≡ None };
}
