ghost use Rattle.frame.specs.Meanings.{meaning};
ghost use Rattle.grammar.specs.Texts.{text};
ghost use Rattle.line.specs.Carrying.{Gets};
ghost use Rattle.std.specs.Option.{option_map};
ghost use Rattle.transport.specs.Meaning.{Added};

use frame::Frame;
use frame_writer::write;
use transport::{FRAME_MOST, Transport};

// Puts the text of the frame. It has 1 to 709 bytes, so this is never refused.
pub(crate) fn put_frame<T: Transport>(transport: &mut T, frame: &Frame)
    ensures { Added T.Transport.depth (T.Transport.waiting transport.old)
        (text (meaning frame.now)) (T.Transport.waiting transport.new) }
{
    let mut memory = [0; FRAME_MOST];
    let n = write(frame, &mut memory);
    transport.put(&memory[..n]).unwrap();
}

// Gets a frame, if one comes, into this memory.
pub(crate) fn get_frame<'a, T: Transport>(
    transport: &mut T,
    memory: &'a mut [u8; FRAME_MOST],
) -> Option<&'a [u8]>
    ensures { Gets T.Transport.depth (T.Transport.waiting transport.old) (option_map (λ x. x.now) result)
        (T.Transport.waiting transport.new) }
{
    let n = transport.get(memory).unwrap()?;
    Some(&memory[..n])
}
