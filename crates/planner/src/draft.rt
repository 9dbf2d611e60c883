ghost use Rattle.std.specs.Prelude.{◌≡◌, true};
ghost use Rattle.letter.specs.Changes.{in_range};
ghost use Rattle.letter.specs.declared.change.Change.TheVariants.{Put};

use letter::Path;

mod making;

// A put letter in the making, never out of range. It must be posted or torn up:
// it may be let go only once it is spent, and only those two spend it.
pub struct Draft {
    path: Path,
    // a flag and not a type: what `drop` requires is said of the value that is let go (docs/DECISIONS.md)
    spent: bool,
    ghost good: { in_range (Put path) ≡ true },
}

impl Drop for Draft {
    fn drop(self)
        requires { self.spent ≡ true }
    {
        let Draft { path: _, spent: _ } = self;
    }
}
