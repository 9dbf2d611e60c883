// Transports: what carries frames of 1 to 800 bytes from one end of a line to the other.
#![tactic(auto)]

mod bag;
mod kept;
mod mailbox;
mod refusal;
mod transport;

pub use bag::Bag;
pub use kept::FRAME_MOST;
pub use mailbox::Mailbox;
pub use refusal::TransportRefusal;
pub use transport::Transport;
