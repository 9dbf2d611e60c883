// Steps that the tests share, each at any transport.
use std::process::Abort;
use transport::{Transport, TransportRefusal};

// A transport under test. Its runtime ends the test at a step that does not go as it should.
#[derive(Drop)]
pub struct Tested<'a, A, T> {
    pub rt: &'a A,
    pub transport: T,
}

impl<'a, A: Abort, T: Transport> Tested<'a, A, T> {
    pub fn new(rt: &'a A, transport: T) -> Self {
        Tested { rt, transport }
    }

    pub fn puts(&mut self, frame: &[u8]) {
        assert!(self.rt; self.transport.put(frame) == Ok(()));
    }

    // A put of these bytes is refused.
    pub fn put_refused(&mut self, frame: &[u8]) {
        assert!(self.rt; self.transport.put(frame) == Err(TransportRefusal::FrameSize));
    }

    // The next frame is the one byte `want`, and the memory behind it is as it was.
    pub fn gets(&mut self, want: u8) {
        let mut memory = [7u8; 800];
        assert!(self.rt; self.transport.get(&mut memory) == Ok(Some(1)));
        assert!(self.rt; memory[0] == want && memory[1..] == [7; 799]);
    }

    pub fn gets_none(&mut self) {
        let mut memory = [7u8; 800];
        assert!(self.rt; self.transport.get(&mut memory) == Ok(None));
        assert!(self.rt; memory == [7; 800]);
    }

    // A get into 799 bytes is refused, and leaves them.
    pub fn get_refused(&mut self) {
        let mut memory = [7u8; 799];
        assert!(self.rt; self.transport.get(&mut memory) == Err(TransportRefusal::MemorySize));
        assert!(self.rt; memory == [7; 799]);
    }
}
