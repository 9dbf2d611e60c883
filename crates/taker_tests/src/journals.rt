use std::process::Abort;
use std::test::Fail;
use taker::{Journal, Taker, TakerRefusal};

// A journal whose page has 4,047 numbers: of 82 letters of 48 bytes and one of 28, each with its length.
fn nearly_full(rt: &(impl Abort + AllocGlobal)) -> Result<Journal, Fail> {
    let mut journal = Journal::new(rt.alloc())?;
    for _ in 0..82 {
        journal.take(&[9; 48])?;
    }
    journal.take(&[9; 28])?;
    assert_eq!(rt; journal.number(4_046), Some(9));
    assert_eq!(rt; journal.number(4_047), None);
    Ok(journal)
}

#[test]
fn page_of_4095(rt: HostRuntime) -> Result<(), Fail> {
    let mut journal = nearly_full(&rt)?;
    journal.take(&[8; 47])?;
    assert_eq!(rt; journal.number(4_094), Some(8));
    assert_eq!(rt; journal.number(4_095), None);
    // not even one byte and its length find room
    assert_eq!(rt; journal.take(&[7]), Err(TakerRefusal::NoPage));
    assert_eq!(rt; journal.number(4_095), None);
    Ok(())
}

#[test]
fn page_of_4096(rt: HostRuntime) -> Result<(), Fail> {
    let mut journal = nearly_full(&rt)?;
    journal.take(&[8; 48])?;
    assert_eq!(rt; journal.number(4_047), Some(48));
    assert_eq!(rt; journal.number(4_095), Some(8));
    assert_eq!(rt; journal.number(4_096), None);
    Ok(())
}

#[test]
fn no_page_of_4097(rt: HostRuntime) -> Result<(), Fail> {
    let mut journal = nearly_full(&rt)?;
    journal.take(&[8])?;
    // 4,049 numbers, and 48 more would be 4,097
    assert_eq!(rt; journal.take(&[7; 47]), Err(TakerRefusal::NoPage));
    assert_eq!(rt; journal.number(4_049), None);
    journal.take(&[7; 46])?;
    assert_eq!(rt; journal.number(4_095), Some(7));
    assert_eq!(rt; TakerRefusal::NoPage.number(), 5);
    Ok(())
}

#[test]
fn no_letters(rt: HostRuntime) -> Result<(), Fail> {
    let mut journal = Journal::new(rt.alloc())?;
    assert_eq!(rt; journal.take(&[]), Err(TakerRefusal::NoPage));
    assert_eq!(rt; journal.take(&[1; 49]), Err(TakerRefusal::NoPage));
    assert_eq!(rt; journal.number(0), None);
    Ok(())
}
