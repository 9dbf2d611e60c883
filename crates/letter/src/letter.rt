ghost use Rattle.std.specs.Prelude.{◌≡◌, ◌≤◌, length};

mod bytes;

pub use bytes::is_letter;

// The most bytes that a letter has.
pub const MOST: usize = 48;

// A letter: what a planner hands over to be carried, 1 to 48 bytes, the first `len` of `bytes`.
// An array with a length: a letter needs no heap and is copied with its frame, which an `ArrayVec` is not.
#[derive(Clone, Copy)]
pub struct Letter {
    bytes: [u8; MOST],
    len: usize,
    ghost some: { 1 ≤ len },
    ghost few: { len ≤ 48 },
    ghost whole: { length bytes ≡ 48 },
}
