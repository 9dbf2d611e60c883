// A run of message numbers, both ends named. Whether it may stand in a receipt, `Ranges` decides.
#[derive(Clone, Copy, PartialEq, Eq, Debug)]
pub struct Range {
    pub lower: u64,
    pub upper: u64,
}
