// How far the sequence has come at the office's end.
#[derive(Clone, Copy, PartialEq, Eq, Debug)]
pub enum OfficeState {
    None,
    Created,
    Closed,
    Terminated,
}
