// What is printed for a line.
use crate::said::Said;
use frame::Frame;
use frame_reader::read;
use frame_writer::write;
use pieces::ReadFault;
use std::fmt;

#[derive(Clone, Copy)]
pub enum Answer {
    // The bytes are the text of this frame.
    Read(Frame),
    // This frame was read, and its text is another.
    Otherwise(Frame),
    Refused(ReadFault),
}

impl Answer {
    pub fn to(bytes: &[u8]) -> Answer {
        match read(bytes) {
            Ok(frame) => {
                let mut out = [0; 800];
                let len = write(&frame, &mut out);
                if &out[..len] == bytes {
                    Answer::Read(frame)
                } else {
                    Answer::Otherwise(frame)
                }
            }
            Err(fault) => Answer::Refused(fault),
        }
    }
}

impl fmt::Display for Answer {
    fn fmt<W: fmt::Write>(&self, f: &mut fmt::Formatter<W>) -> fmt::Result {
        match *self {
            Answer::Read(frame) => write!(f, "{}", Said(frame)),
            Answer::Otherwise(frame) => write!(f, "{} WRITTEN OTHERWISE", Said(frame)),
            Answer::Refused(fault) => {
                write!(f, "refused {} reader {}", fault.number(), fault.place)
            }
        }
    }
}
