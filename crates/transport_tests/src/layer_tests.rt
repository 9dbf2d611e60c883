use crate::forward;
use crate::through::Through;
use std::test::Fail;
use transport::{Bag, Mailbox, Transport};

// A frame goes from a bag into a mailbox under two layers, and comes out there.
#[test]
fn layers(rt: HostRuntime) -> Result<(), Fail> {
    let mut from = Bag::new(rt.alloc())?;
    let mut to = Through(Through(Mailbox::new(rt.alloc())?));
    let mut memory = [0u8; 800];
    assert!(rt; forward(&mut from, &mut to) == Ok(false));
    from.put(b"ab")?;
    assert!(rt; forward(&mut from, &mut to) == Ok(true));
    assert!(rt; to.get(&mut memory) == Ok(Some(2)));
    assert!(rt; memory.starts_with(b"ab"));
    assert!(rt; to.get(&mut memory) == Ok(None));
    assert_eq!(rt; Through::<Through<Mailbox>>::depth(), 32);
    Ok(())
}
