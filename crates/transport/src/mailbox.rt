ghost use Rattle.std.specs.Prelude.{◌≡◌, ◌≤◌, length};

use crate::kept::Kept;
use circular_buffer::HeapCircularBuffer;

mod calls;

// A transport that keeps 32 frames, first in, first out; a put at 32 is lost.
#[derive(Drop)]
pub struct Mailbox {
    frames: HeapCircularBuffer<Kept>,
    ghost whole: { frames.capacity ≡ 32 },
    ghost few: { length frames.items ≤ 32 },
}
