use crate::path::ValidPath;

// One of the ten calls of a line, with what it is given. A value and no closure: a run is a list of calls that is
// recorded, and the theorems speak of the named call.
#[derive(Drop)]
pub enum Call {
    Open,
    Write(Vec<u8>),
    // a draft of this path, torn up if the post is refused
    Post(ValidPath),
    Send(u64),
    Ask,
    Hear,
    Close,
    Finish,
    Read,
    Deliver,
}
