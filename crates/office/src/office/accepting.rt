ghost use Rattle.std.specs.Prelude.{◌≡◌};
ghost use Rattle.letter.specs.Letters.{content};
ghost use Rattle.office.specs.Destinations.{accepts};
ghost use Rattle.office.specs.Seen.{seen};

use super::Office;
use frame::Number;
use letter::Letter;

impl Office {
    // Accepts the letter, if its message number has a place and is new.
    pub(crate) fn accept(&mut self, number: Number, letter: Letter)
        ensures { seen self.new
            ≡ accepts (seen self.old) number.value (content letter) }
    {
        self.places.keep(number, letter);
    }
}
