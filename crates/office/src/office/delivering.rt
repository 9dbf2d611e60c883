ghost use Rattle.std.specs.Prelude.{◌≡◌};
ghost use Rattle.std.specs.Option.{option_map};
ghost use Rattle.letter.specs.Letters.{content};
ghost use Rattle.office.specs.Deliveries.{next_letter, delivery, delivers};
ghost use Rattle.office.specs.Laws.{Keeps};
ghost use Rattle.office.specs.Seen.{seen};

use super::Office;
use letter::Letter;

impl Office {
    // The letter that is to be delivered next, if it is accepted.
    pub fn next(&self) -> Option<&Letter>
        ensures { option_map (λ l. content l.now) result ≡ next_letter (seen self.now) }
    {
        self.places.first()
    }

    // Counts that letter as delivered, and answers its message number.
    pub fn delivered(&mut self) -> Option<u64>
        ensures value { delivery (seen self.new) result
            ≡ delivers (seen self.old) }
        ensures keeps { Keeps (seen self.old) (seen self.new) }
    {
        self.places.deliver()
    }
}
