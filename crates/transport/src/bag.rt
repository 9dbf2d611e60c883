ghost use Rattle.std.specs.Prelude.{◌≡◌, ◌≤◌, length};

use crate::kept::Kept;
use circular_buffer::HeapCircularBuffer;

mod calls;

// A transport that promises no order: it keeps 8 frames, hands out the newest, and each one twice.
#[derive(Drop)]
pub struct Bag {
    frames: HeapCircularBuffer<Kept>,
    // whether the next get that finds a frame takes it off
    takes: bool,
    ghost whole: { frames.capacity ≡ 8 },
    ghost few: { length frames.items ≤ 8 },
}
