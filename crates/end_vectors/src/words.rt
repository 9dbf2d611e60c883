// The first word of a line, and what comes after the blank behind it.
pub fn cut(line: &[u8]) -> (&[u8], &[u8]) {
    let (word, rest) = line.split_at(line.iter().position(|b| *b == b' ').unwrap_or(line.len()));
    match rest {
        [_, behind @ ..] => (word, behind),
        [] => (word, rest),
    }
}

// The number that the digits write, or the largest if that is larger; 0 for what is none.
pub fn number(digits: &[u8]) -> u64 {
    let mut n: u64 = 0;
    for b in digits {
        if !b.is_ascii_digit() {
            return 0;
        }
        n = n.saturating_mul(10).saturating_add(u64::from(*b - b'0'));
    }
    n
}

// The same in 32 bits; the largest for what is larger.
pub fn small(digits: &[u8]) -> u32 {
    u32::try_from(number(digits)).unwrap_or(u32::MAX)
}
