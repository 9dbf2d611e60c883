use transport::{Transport, TransportRefusal};

// A layer that hands every call on: what waits in it, and its depth, are those of the transport below.
#[derive(Drop)]
pub struct Through<T>(pub T);

impl<T: Transport> Transport for Through<T> {
    ghost waiting = { λ t. T.Transport.waiting t.0 };

    ghost depth = { T.Transport.depth };

    ghost sized = { λ t frame h. T.Transport.sized t.0 frame h };

    fn depth() -> u32 {
        T::depth()
    }

    fn put(&mut self, frame: &[u8]) -> Result<(), TransportRefusal> {
        self.0.put(frame)
    }

    fn get(&mut self, memory: &mut [u8]) -> Result<Option<usize>, TransportRefusal> {
        self.0.get(memory)
    }
}
