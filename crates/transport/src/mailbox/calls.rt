ghost use Rattle.std.specs.Prelude.{◌≡◌, [], IfOk};
ghost use Rattle.transport.specs.Calls.{put_answer, get_answer, get_memory};
ghost use Rattle.transport.specs.Mailbox.{in_mailbox, oldest, mailbox_put, mailbox_get};
ghost use Rattle.transport.specs.HeldSized.{held_sized};

use super::Mailbox;
use crate::kept::{Kept, is_frame};
use crate::refusal::TransportRefusal;
use crate::transport::Transport;
use circular_buffer::HeapCircularBuffer;
use std::alloc::{AllocError, Global};

// How many frames it keeps, all in order.
const SIZE: usize = 32;

const DEPTH: u32 = 32;

impl Mailbox {
    // An empty mailbox, with all the memory that it ever uses.
    pub fn new(heap: Global) -> Result<Mailbox, AllocError>
        ensures { IfOk result (λ m. in_mailbox m ≡ []) }
    {
        let frames = HeapCircularBuffer::with_capacity(heap, SIZE)?;
        Ok(Mailbox { frames })
    }
}

impl Transport for Mailbox {
    ghost waiting = { in_mailbox };

    ghost depth = { 32 };

    ghost sized = { λ t frame h. held_sized t.frames.items frame h };

    fn depth() -> u32 {
        DEPTH
    }

    fn put(&mut self, frame: &[u8]) -> Result<(), TransportRefusal>
        ensures answer { result ≡ put_answer frame.now }
        ensures waiting { in_mailbox self.new ≡
            mailbox_put (in_mailbox self.old) frame.now }
    {
        if !is_frame(frame) {
            return Err(TransportRefusal::FrameSize);
        }
        // Where 32 wait there is no room, and the frame is lost.
        if !self.frames.is_full() {
            self.frames.push_back(Kept::new(frame));
        }
        Ok(())
    }

    fn get(&mut self, memory: &mut [u8]) -> Result<Option<usize>, TransportRefusal>
        ensures answer { result ≡
            get_answer (oldest (in_mailbox self.old)) memory.old }
        ensures waiting { in_mailbox self.new ≡
            mailbox_get (in_mailbox self.old) memory.old }
        ensures memory { memory.new ≡
            get_memory (oldest (in_mailbox self.old)) memory.old }
    {
        let n = Kept::hand_out(self.frames.front(), memory)?;
        self.frames.pop_front();
        Ok(n)
    }
}
