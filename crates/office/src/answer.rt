use frame::{Form, Frame};

// What a read answers: the form that was read, and the frame to put back, if any.
#[derive(Clone, Copy)]
pub struct ReadAnswer {
    pub form: Form,
    pub reply: Option<Frame>,
}
