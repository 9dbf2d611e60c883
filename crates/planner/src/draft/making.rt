ghost use Rattle.std.specs.Prelude.{◌≡◌};
ghost use Rattle.letter.specs.Changes.{encoded};
ghost use Rattle.letter.specs.Letters.{content};
ghost use Rattle.letter.specs.declared.change.Change.TheVariants.{Put};
ghost use Rattle.planner.specs.Drafts.{drafted, shown};

use super::Draft;
use letter::{Letter, LetterRefusal, Path, encode_put};

impl Draft {
    // A draft of these values; refuses those that would make a spoilt letter, and then makes nothing.
    pub fn new(train: u32, section: u32, enter: u32, leave: u32) -> Result<Draft, LetterRefusal>
        ensures { shown result ≡ drafted train section enter leave }
    {
        let path = Path::new(train, section, enter, leave).ok_or(LetterRefusal::Spoilt)?;
        Ok(Draft { path, spent: false })
    }

    // The path that it would put.
    pub fn path(&self) -> Path
        ensures { result ≡ self.now.path }
    {
        self.path
    }

    // Spends it without posting it.
    pub fn tear(self) {
        let mut draft = self;
        draft.spent = true;
    }

    // The letter that it stands for.
    pub(crate) fn letter(&self) -> Letter
        ensures { content result ≡ encoded (Put self.now.path) }
    {
        Letter::new(&encode_put(self.path)).unwrap()
    }
}
