use letter::{Letter, LetterRefusal, withdrawal};
use std::test::Fail;

#[test]
fn one_to_forty_eight_bytes(rt: HostRuntime) {
    let bytes = [7; 49];
    assert!(rt; Letter::new(&bytes[..0]).is_none());
    assert!(rt; Letter::new(&bytes[..1]).is_some());
    assert!(rt; Letter::new(&bytes[..48]).is_some());
    assert!(rt; Letter::new(&bytes).is_none());
}

#[test]
fn withdrawals_in_range(rt: HostRuntime) -> Result<(), Fail> {
    assert!(rt; withdrawal(1, 1).is_ok());
    assert!(rt; withdrawal(999_999, 9_999).is_ok());
    let made = withdrawal(5, 10)?;
    assert_eq!(rt; made.as_slice(), [2, 0, 0, 0, 5, 0, 10].as_slice());
    Ok(())
}

#[test]
fn withdrawals_out_of_range(rt: HostRuntime) {
    assert!(rt; refused(0, 1));
    assert!(rt; refused(1, 0));
    assert!(rt; refused(1_000_000, 1));
    assert!(rt; refused(1, 10_000));
    assert!(rt; refused(1, 65_537));
    assert_eq!(rt; LetterRefusal::Spoilt.number(), 13);
}

fn refused(train: u32, section: u32) -> bool {
    withdrawal(train, section).err() == Some(LetterRefusal::Spoilt)
}
