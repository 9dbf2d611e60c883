ghost use Rattle.std.specs.Prelude.{◌≡◌, false, [], IfOk};
ghost use Rattle.transport.specs.Bag.{in_bag, takes_next, newest, bag_put, bag_get, bag_takes};
ghost use Rattle.transport.specs.Calls.{put_answer, get_answer, get_memory};
ghost use Rattle.transport.specs.HeldSized.{held_sized};

use super::Bag;
use crate::kept::{Kept, is_frame};
use crate::refusal::TransportRefusal;
use crate::transport::Transport;
use circular_buffer::HeapCircularBuffer;
use std::alloc::{AllocError, Global};

// How many frames it keeps, and how many of them in order.
const SIZE: usize = 8;

const DEPTH: u32 = 0;

impl Bag {
    // An empty bag, with all the memory that it ever uses.
    pub fn new(heap: Global) -> Result<Bag, AllocError>
        ensures { IfOk result (λ b. (in_bag b ≡ []) × (takes_next b ≡ false)) }
    {
        let frames = HeapCircularBuffer::with_capacity(heap, SIZE)?;
        Ok(Bag {
            frames,
            takes: false,
        })
    }
}

impl Transport for Bag {
    ghost waiting = { in_bag };

    ghost depth = { 0 };

    ghost sized = { λ t frame h. held_sized t.frames.items frame h };

    fn depth() -> u32 {
        DEPTH
    }

    fn put(&mut self, frame: &[u8]) -> Result<(), TransportRefusal>
        ensures answer { result ≡ put_answer frame.now }
        ensures waiting { in_bag self.new ≡
            bag_put (in_bag self.old) frame.now }
        ensures takes { takes_next self.new ≡ takes_next self.old }
    {
        if !is_frame(frame) {
            return Err(TransportRefusal::FrameSize);
        }
        // Where 8 wait the oldest gives way.
        self.frames.push_back(Kept::new(frame));
        Ok(())
    }

    #[tactic(auto, using(crate::proofs::Holds::newest_is))]
    fn get(&mut self, memory: &mut [u8]) -> Result<Option<usize>, TransportRefusal>
        ensures answer { result ≡
            get_answer (newest (in_bag self.old)) memory.old }
        ensures waiting { in_bag self.new ≡
            bag_get (takes_next self.old) (in_bag self.old) memory.old }
        ensures memory { memory.new ≡
            get_memory (newest (in_bag self.old)) memory.old }
        ensures takes { takes_next self.new ≡
            bag_takes (takes_next self.old) (in_bag self.old) memory.old }
    {
        let n = Kept::hand_out(self.frames.back(), memory)?;
        if n.is_some() {
            if self.takes {
                self.frames.pop_back();
            }
            self.takes = !self.takes;
        }
        Ok(n)
    }
}
