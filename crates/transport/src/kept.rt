ghost use Rattle.std.specs.Prelude.{◌≡◌};
ghost use Rattle.transport.specs.Calls.{is_frame, get_answer, get_memory};
ghost use Rattle.transport.specs.Meaning.{Sized};

use crate::refusal::TransportRefusal;
use arrayvec::ArrayVec;

// The most bytes that a frame has, and the least memory that a get is lent.
pub const FRAME_MOST: usize = 800;

// A frame as it is kept: its bytes, in memory of its own.
#[derive(Drop)]
pub(crate) struct Kept {
    bytes: ArrayVec<u8, FRAME_MOST>,
    ghost sized: { Sized bytes.items },
}

// Whether these bytes may be a frame.
pub(crate) fn is_frame(bytes: &[u8]) -> bool
    ensures { result ≡ is_frame bytes.now }
{
    (1..=FRAME_MOST).contains(&bytes.len())
}

impl Kept {
    ghost use Rattle.transport.specs.Stored.{handed};

    // The frame, copied.
    pub(crate) fn new(frame: &[u8]) -> Kept
        requires { Sized frame.now }
        ensures { result.bytes.items ≡ frame.now }
    {
        let mut bytes = ArrayVec::new();
        bytes.try_extend_from_slice(frame).unwrap();
        Kept { bytes }
    }

    // Copies this frame, if any, to the front of the memory, and answers its length.
    pub(crate) fn hand_out(
        frame: Option<&Kept>,
        memory: &mut [u8],
    ) -> Result<Option<usize>, TransportRefusal>
        ensures answer { result ≡ get_answer (handed frame.entry) memory.old }
        ensures memory { memory.new ≡ get_memory (handed frame.entry) memory.old }
    {
        if memory.len() < FRAME_MOST {
            return Err(TransportRefusal::MemorySize);
        }
        let Some(kept) = frame else {
            return Ok(None);
        };
        let n = kept.bytes.len();
        memory[..n].copy_from_slice(&kept.bytes);
        Ok(Some(n))
    }
}
