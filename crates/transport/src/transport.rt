ghost use Rattle.std.specs.Prelude.{◌≡◌, ℕ};
ghost use Rattle.std.specs.List.{ContainsAt as Has};
ghost use Rattle.transport.specs.Meaning.{Bytes, Frames, Sized, Put, Got};

use crate::refusal::TransportRefusal;

// What carries frames. It may lose, repeat, delay and reorder them, but it makes none up.
pub trait Transport {
    // the frames that wait, oldest first
    ghost waiting: { Self → Frames };

    // how many frames it keeps, first in, first out; at 0 nothing of that kind is promised
    ghost depth: { ℕ };

    fn depth() -> u32
        ensures { result ≡ depth };

    fn put(&mut self, frame: &[u8]) -> Result<(), TransportRefusal>
        ensures { Put depth (waiting self.old) frame.now result
            (waiting self.new) };

    // The frame's bytes stand at the front of the memory, and the answer is how many.
    fn get(&mut self, memory: &mut [u8]) -> Result<Option<usize>, TransportRefusal>
        ensures { Got depth (waiting self.old) memory.old result
            (waiting self.new) memory.new };

    ghost sized: { (t : Self) (frame : Bytes) → Has (waiting t) frame → Sized frame };
}
