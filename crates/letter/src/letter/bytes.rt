ghost use Rattle.std.specs.Prelude.{◌≡◌, ◌≤◌, ◌++◌, length, drop};
ghost use Rattle.std.specs.Option.{option_map};
ghost use Rattle.letter.specs.Letters.{content, is_letter, letter_of};

use super::{Letter, MOST};

impl Letter {
    // The letter of these bytes; none where they are none or more than 48.
    pub fn new(bytes: &[u8]) -> Option<Letter>
        ensures { option_map content result ≡ letter_of bytes.now }
    {
        if !is_letter(bytes) {
            return None;
        }
        let len = bytes.len();
        let mut held = [0; MOST];
        held[..len].copy_from_slice(bytes);
        Some(Letter { bytes: held, len })
    }

    pub fn as_slice(&self) -> &[u8]
        ensures { result.now ≡ content self.now }
    {
        &self.bytes[..self.len]
    }
}

// Whether a letter may have these bytes: 1 to 48.
pub fn is_letter(bytes: &[u8]) -> bool
    ensures { result ≡ is_letter bytes.now }
{
    (1..=MOST).contains(&bytes.len())
}
