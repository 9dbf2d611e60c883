ghost use Rattle.std.specs.Prelude.{◌≡◌};
ghost use Rattle.hex_text.specs.Hex.{digit_value, byte_of};

// The value of a hex digit in either case; none for any other character.
// A table: `to_digit` asks for a `char` and gives a `u32`, two conversions for these four lines.
fn digit(c: u8) -> Option<u8>
    ensures { result ≡ digit_value c }
{
    match c {
        b'0'..=b'9' => Some(c - b'0'),
        b'A'..=b'F' => Some(c - b'A' + 10),
        b'a'..=b'f' => Some(c - b'a' + 10),
        _ => None,
    }
}

// The byte that two digits write; none where one of them is no digit.
pub(crate) fn byte(high: u8, low: u8) -> Option<u8>
    ensures { result ≡ byte_of high low }
{
    let h = digit(high)?;
    let l = digit(low)?;
    Some(h * 16 + l)
}
