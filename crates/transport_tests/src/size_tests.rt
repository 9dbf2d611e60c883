use crate::steps::Tested;
use std::process::Abort;
use std::test::Fail;
use transport::{Bag, Mailbox, Transport, TransportRefusal};

// Puts of 0, 1, 800 and 801 bytes.
fn frame_sizes<A: Abort, T: Transport>(t: &mut Tested<'_, A, T>) {
    t.put_refused(&[]);
    t.put_refused(&[5; 801]);
    t.gets_none();
    t.puts(&[5]);
    t.gets(5);
    t.puts(&[6; 800]);
    let mut memory = [7u8; 800];
    assert!(t.rt; t.transport.get(&mut memory) == Ok(Some(800)));
    assert!(t.rt; memory == [6; 800]);
}

// Gets into 799, 800 and 801 bytes.
fn memory_sizes<A: Abort, T: Transport>(t: &mut Tested<'_, A, T>) {
    t.get_refused();
    t.gets_none();
    t.puts(b"a");
    t.get_refused();
    t.gets(b'a');
    t.puts(b"bc");
    let mut memory = [7u8; 801];
    assert!(t.rt; t.transport.get(&mut memory) == Ok(Some(2)));
    assert!(t.rt; memory.starts_with(b"bc") && memory[2..] == [7; 799]);
}

#[test]
fn mailbox_sizes(rt: HostRuntime) -> Result<(), Fail> {
    let mut m = Tested::new(&rt, Mailbox::new(rt.alloc())?);
    frame_sizes(&mut m);
    memory_sizes(&mut m);
    Ok(())
}

#[test]
fn bag_sizes(rt: HostRuntime) -> Result<(), Fail> {
    let mut b = Tested::new(&rt, Bag::new(rt.alloc())?);
    memory_sizes(&mut b);
    let mut b = Tested::new(&rt, Bag::new(rt.alloc())?);
    frame_sizes(&mut b);
    Ok(())
}

#[test]
fn numbers(rt: HostRuntime) {
    assert_eq!(rt; TransportRefusal::FrameSize.number(), 9);
    assert_eq!(rt; TransportRefusal::MemorySize.number(), 10);
    assert_eq!(rt; Mailbox::depth(), 32);
    assert_eq!(rt; Bag::depth(), 0);
}
