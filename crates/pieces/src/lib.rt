// The pieces that the text of a frame is made of: cutting them off, and what one piece by itself says.
#![tactic(auto)]

mod bytes;
mod decimal;
mod fault;
mod hex;
mod lexer;
mod names;
mod range;
mod token;
mod values;

pub use fault::ReadFault;
pub use hex::read_letter;
pub use lexer::lex;
pub use names::{Element, FaultCode};
pub use range::read_range;
pub use token::{Lexed, Tag, Token};
pub use values::{read_fault_code, read_identifier, read_number};
