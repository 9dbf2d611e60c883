// Where the planner's end stands with its sequence. It passes these states in this order and may leave some out;
// only from Creating it may go back to None, where the office refuses to create a sequence.
#[derive(Clone, Copy, PartialEq, Eq, Debug)]
pub enum PlannerState {
    None,
    Creating,
    Created,
    Closing,
    Closed,
    Terminating,
    Ended,
}
