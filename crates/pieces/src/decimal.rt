// Numbers in decimal.
ghost use Rattle.std.specs.Prelude.{◌≡◌, nat_lt, slice_index};
ghost use Rattle.pieces.specs.Numbers.{more, plain};

// The number that the digits write, with no leading zero, if it fits 64 bits.
// A loop, which stops at the first byte that is no digit: the library's `parse` asks for a `str`, and so goes through
// the whole text once more, however long it is.
pub(crate) fn decimal(text: &[u8]) -> Option<u64>
    ensures { result ≡ plain text.now }
{
    if !starts_number(text) {
        return None;
    }
    let mut n = 0;
    for b in text {
        n = with_digit(n, *b)?;
    }
    Some(n)
}

// The number with this digit behind it, if it is a digit and the number fits 64 bits.
fn with_digit(n: u64, digit: u8) -> Option<u64>
    ensures { result ≡ more n digit }
{
    if !digit.is_ascii_digit() {
        return None;
    }
    n.checked_mul(10)?.checked_add(u64::from(digit - b'0'))
}

// Whether the first byte is past `0`, so that no zero leads and there is a byte at all.
fn starts_number(text: &[u8]) -> bool
    ensures { result ≡ nat_lt 48 (slice_index text.now 0) }
{
    matches!(text, [first, ..] if *first > b'0')
}
