ghost use Rattle.std.specs.Prelude.{◌≤◌, vec_len, vec_capacity};

mod calls;

// The most numbers that a journal's page has.
const MOST: usize = 4096;

// Keeps every letter: its page is, for each, its length and then its bytes.
#[derive(Drop)]
pub struct Journal {
    numbers: Vec<u8>,
    ghost few: { vec_len numbers ≤ 4096 },
    ghost room: { 4096 ≤ vec_capacity numbers },
}
