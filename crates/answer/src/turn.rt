use crate::refusal::LineRefusal;

// What one call, made until nothing comes, came to: how often it was done, and why it was refused, if that ended it.
#[derive(Clone, Copy)]
pub struct Phase {
    pub count: u64,
    pub refused: Option<LineRefusal>,
}

// What the six parts of a turn came to, in their order.
#[derive(Clone, Copy)]
pub struct TurnReport {
    pub deliver: Phase,
    pub send: Phase,
    pub ask: Phase,
    pub read: Phase,
    pub deliver_again: Phase,
    pub hear: Phase,
}
