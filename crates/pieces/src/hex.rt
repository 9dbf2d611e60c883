// The bytes of a letter, each as two of 0-9A-F.
ghost use Rattle.std.specs.Prelude.{◌≡◌, ◌≤◌, [], length};
ghost use Rattle.std.specs.Option.{option_map};
ghost use Rattle.letter.specs.Letters.{content};
ghost use Rattle.pieces.specs.Hex.{byte_of, hex_digit, read_pairs, letter_read};

use arrayvec::ArrayVec;
use letter::Letter;

// The value of one of 0-9A-F; none for any other byte.
fn hex_digit(b: u8) -> Option<u8>
    ensures { result ≡ hex_digit b }
{
    match b {
        b'0'..=b'9' => Some(b - b'0'),
        b'A'..=b'F' => Some(b - b'A' + 10),
        _ => None,
    }
}

// The byte that two digits write; none where one of them is no digit.
fn byte(high: u8, low: u8) -> Option<u8>
    ensures { result ≡ byte_of high low }
{
    Some(hex_digit(high)? * 16 + hex_digit(low)?)
}

// The bytes that the pairs of digits stand for.
fn pairs(text: &[u8]) -> Option<ArrayVec<u8, 48>>
    requires { length text.now ≤ 96 }
    ensures { option_map (λ v. v.items) result ≡ read_pairs [] text.now }
{
    let mut bytes = ArrayVec::new();
    let mut rest = text;
    while let [high, low, tail @ ..] = rest {
        bytes.push(byte(*high, *low)?);
        rest = tail;
    }
    rest.is_empty().then_some(bytes)
}

// The letter whose text this is.
pub fn read_letter(text: &[u8]) -> Option<Letter>
    ensures { option_map content result ≡ letter_read text.now }
{
    if text.len() > 96 {
        return None;
    }
    Letter::new(pairs(text)?.as_slice())
}
