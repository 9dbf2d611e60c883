ghost use Rattle.transport_tests.specs.Moves.{Forwarded};

use transport::{FRAME_MOST, Transport, TransportRefusal};

// Gets one frame of one transport and puts it into another; whether there was one.
pub fn forward<A: Transport, B: Transport>(
    from: &mut A,
    to: &mut B,
) -> Result<bool, TransportRefusal>
    ensures { Forwarded A.Transport.depth B.Transport.depth
        (A.Transport.waiting from.old) (B.Transport.waiting to.old) result
        (A.Transport.waiting from.new) (B.Transport.waiting to.new) }
{
    let mut memory = [0u8; FRAME_MOST];
    match from.get(&mut memory)? {
        Some(n) => {
            to.put(&memory[..n])?;
            Ok(true)
        }
        None => Ok(false),
    }
}
