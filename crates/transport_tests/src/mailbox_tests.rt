use crate::steps::Tested;
use std::test::Fail;
use transport::Mailbox;

// Of 33 frames the 31st and the 32nd are kept, and the 33rd is lost; what is no frame is refused even then.
#[test]
fn keeps_32(rt: HostRuntime) -> Result<(), Fail> {
    let mut m = Tested::new(&rt, Mailbox::new(rt.alloc())?);
    for i in 0..33u8 {
        m.puts(&[i]);
    }
    m.put_refused(&[]);
    for i in 0..32u8 {
        m.gets(i);
    }
    m.gets_none();
    Ok(())
}

// With 31 waiting at all times, frames come out in the order in which they went in.
#[test]
fn goes_round(rt: HostRuntime) -> Result<(), Fail> {
    let mut m = Tested::new(&rt, Mailbox::new(rt.alloc())?);
    for i in 0..31u8 {
        m.puts(&[i]);
    }
    for i in 0..200u8 {
        m.puts(&[i.wrapping_add(31)]);
        m.gets(i);
    }
    for i in 200..231u8 {
        m.gets(i);
    }
    m.gets_none();
    Ok(())
}
