ghost use Rattle.std.specs.Prelude.{◌≡◌};
ghost use Rattle.letter.specs.Changes.{decoded, Decodes, pair_in_range, times_in_range};

use crate::change::{Change, Path};

// The change that the bytes ask for; none where the letter is spoilt.
pub fn decode(letter: &[u8]) -> Option<Change>
    ensures value { result ≡ decoded letter.now }
    ensures exact { Decodes letter.now result }
{
    fields(letter)
}

// Takes the letter apart by its kind and its fields, each with the high byte first.
fn fields(letter: &[u8]) -> Option<Change>
    ensures { result ≡ decoded letter.now }
{
    match *letter {
        [1, t0, t1, t2, t3, s0, s1, e0, e1, e2, e3, l0, l1, l2, l3] => {
            let train = u32::from_be_bytes([t0, t1, t2, t3]);
            let section = u16::from_be_bytes([s0, s1]);
            let enter = u32::from_be_bytes([e0, e1, e2, e3]);
            let leave = u32::from_be_bytes([l0, l1, l2, l3]);
            if !are_train_and_section(train, section.into()) || !are_times(enter, leave) {
                return None;
            }
            Some(Change::Put(Path {
                train,
                section,
                enter,
                leave,
            }))
        }
        [2, t0, t1, t2, t3, s0, s1] => {
            let train = u32::from_be_bytes([t0, t1, t2, t3]);
            let section = u16::from_be_bytes([s0, s1]);
            if !are_train_and_section(train, section.into()) {
                return None;
            }
            Some(Change::Withdrawal { train, section })
        }
        _ => None,
    }
}

// Whether a train and a section have these numbers.
pub(crate) fn are_train_and_section(train: u32, section: u32) -> bool
    ensures { result ≡ pair_in_range train section }
{
    (1..=999_999).contains(&train) && (1..=9_999).contains(&section)
}

// Whether a path may have these times.
pub(crate) fn are_times(enter: u32, leave: u32) -> bool
    ensures { result ≡ times_in_range enter leave }
{
    enter < leave && leave <= 172_799
}
