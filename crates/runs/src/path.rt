ghost use Rattle.std.specs.Prelude.{◌≡◌, true};
ghost use Rattle.letter.specs.Changes.{in_range};
ghost use Rattle.letter.specs.declared.change.Change.TheVariants.{Put};

use letter::Path;

mod making;

// A path that can be drafted: its values are in range.
#[derive(Clone, Copy)]
pub struct ValidPath {
    path: Path,
    ghost good: { in_range (Put path) ≡ true },
}
