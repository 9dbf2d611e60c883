ghost use Rattle.std.specs.Prelude.{◌≡◌, ◌≤◌, true, length, take};
ghost use Rattle.frame.specs.Ascending.{ascending};

use crate::range::Range;

mod list;

// The most ranges that a receipt names.
pub const MOST: usize = 5;

// The ranges of a receipt: at most five, ascending, each two or more above the one before it;
// the first `count` of `list`. An array with a count: a frame needs no heap and is copied, which an `ArrayVec` is not.
#[derive(Clone, Copy)]
pub struct Ranges {
    list: [Range; MOST],
    count: usize,
    ghost few: { count ≤ 5 },
    ghost whole: { length list ≡ 5 },
    ghost ascends: { ascending 1 (take count list) ≡ true },
}
