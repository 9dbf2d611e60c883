ghost use Rattle.std.specs.Prelude.{◌≡◌, IfOk, vec_items};
ghost use Rattle.hex_text.specs.Hex.{parsed, is_dash};
ghost use Rattle.std.specs.Option.{option_map};

use crate::digits::byte;
use std::alloc::{AllocError, Global};

// The bytes that the text writes as pairs of hex digits, or none where it does not. `-` writes no bytes.
pub fn parse(heap: Global, text: &[u8]) -> Result<Option<Vec<u8>>, AllocError>
    ensures { IfOk result (λ o. option_map vec_items o ≡ parsed text.now) }
{
    let mut bytes = Vec::new(heap);
    if is_dash(text) {
        return Ok(Some(bytes));
    }
    if text.is_empty() {
        return Ok(None);
    }
    // pair by pair: what is left when no pair is left has to be empty
    let mut rest = text;
    while let [high, low, tail @ ..] = rest {
        let Some(b) = byte(*high, *low) else {
            return Ok(None);
        };
        bytes.push(b)?;
        rest = tail;
    }
    if rest.is_empty() {
        Ok(Some(bytes))
    } else {
        Ok(None)
    }
}

fn is_dash(text: &[u8]) -> bool
    ensures { result ≡ is_dash text.now }
{
    text == b"-".as_slice()
}
