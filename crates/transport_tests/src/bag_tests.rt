use crate::steps::Tested;
use std::process::Abort;
use std::test::Fail;
use transport::Bag;

// Of n frames the 8 newest wait, and each comes out twice, the newest first.
fn holds_newest<A: Abort>(b: &mut Tested<'_, A, Bag>, n: u8) {
    for i in 0..n {
        b.puts(&[i]);
    }
    for i in (n.saturating_sub(8)..n).rev() {
        b.gets(i);
        b.gets(i);
    }
    b.gets_none();
}

#[test]
fn keeps_8(rt: HostRuntime) -> Result<(), Fail> {
    let mut b = Tested::new(&rt, Bag::new(rt.alloc())?);
    holds_newest(&mut b, 7);
    holds_newest(&mut b, 8);
    holds_newest(&mut b, 9);
    Ok(())
}

// Of the gets that find a frame every second takes it off.
// One that is refused or finds none does not count.
#[test]
fn every_second(rt: HostRuntime) -> Result<(), Fail> {
    let mut b = Tested::new(&rt, Bag::new(rt.alloc())?);
    b.gets_none();
    b.puts(b"a");
    b.puts(b"b");
    b.get_refused();
    b.gets(b'b');
    b.get_refused();
    b.gets(b'b');
    b.gets(b'a');
    b.puts(b"c");
    b.gets(b'c');
    b.gets(b'a');
    b.gets(b'a');
    b.gets_none();
    Ok(())
}
