ghost use Rattle.std.specs.Prelude.{◌≡◌, true, Some};
ghost use Rattle.letter.specs.Changes.{encoded, decoded, in_range, withdrawal_of};
ghost use Rattle.letter.specs.Letters.{content_if_made};
ghost use Rattle.letter.specs.declared.change.Change.TheVariants.{Put, Withdrawal};

use crate::change::Path;
use crate::decoding::are_train_and_section;
use crate::letter::Letter;
use crate::refusal::LetterRefusal;

// The bytes of a put of this path.
pub fn encode_put(path: Path) -> [u8; 15]
    ensures value { result ≡ encoded (Put path) }
    ensures back { in_range (Put path) ≡ true → decoded result ≡ Some (Put path) }
{
    let [t0, t1, t2, t3] = path.train.to_be_bytes();
    let [s0, s1] = path.section.to_be_bytes();
    let [e0, e1, e2, e3] = path.enter.to_be_bytes();
    let [l0, l1, l2, l3] = path.leave.to_be_bytes();
    [1, t0, t1, t2, t3, s0, s1, e0, e1, e2, e3, l0, l1, l2, l3]
}

// The bytes of a withdrawal of this train and section.
pub fn encode_withdrawal(train: u32, section: u16) -> [u8; 7]
    ensures value { result ≡ encoded (Withdrawal train section) }
    ensures back { in_range (Withdrawal train section) ≡ true → decoded result ≡ Some (Withdrawal train section) }
{
    let [t0, t1, t2, t3] = train.to_be_bytes();
    let [s0, s1] = section.to_be_bytes();
    [2, t0, t1, t2, t3, s0, s1]
}

// The letter that withdraws the path of this train and section.
// Refuses numbers that are out of range, and then makes nothing.
pub fn withdrawal(train: u32, section: u32) -> Result<Letter, LetterRefusal>
    ensures { content_if_made result ≡ withdrawal_of train section }
{
    if !are_train_and_section(train, section) {
        return Err(LetterRefusal::Spoilt);
    }
    Ok(Letter::new(&encode_withdrawal(train, section as u16)).unwrap())
}
