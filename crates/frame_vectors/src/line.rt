// The bytes that a line stands for.
use std::alloc::{AllocError, Global};

// By hand: any two bytes behind `\x` give a byte, and the library `hex` would refuse those that are no digits.
pub fn unescaped(heap: Global, line: &[u8]) -> Result<Vec<u8>, AllocError> {
    let mut bytes = Vec::new(heap);
    let mut rest = line;
    while let [first, after @ ..] = rest {
        rest = after;
        let mut byte = *first;
        if *first == b'\\' {
            if let [_, high, low, behind @ ..] = after {
                byte = nibble(*high).wrapping_mul(16).wrapping_add(nibble(*low));
                rest = behind;
            }
        }
        bytes.push(byte)?;
    }
    Ok(bytes)
}

fn nibble(digit: u8) -> u8 {
    if digit <= b'9' {
        digit.wrapping_sub(b'0')
    } else {
        digit.wrapping_sub(55)
    }
}
