ghost use Rattle.std.specs.Prelude.{◌≡◌, true, IfSome};
ghost use Rattle.letter.specs.Changes.{path_of, in_range};
ghost use Rattle.letter.specs.declared.change.Change.TheVariants.{Put};

use crate::decoding::{are_times, are_train_and_section};

// A train's passage through a section: it enters and leaves at these seconds of the plan.
#[derive(Clone, Copy)]
pub struct Path {
    pub train: u32,
    pub section: u16,
    pub enter: u32,
    pub leave: u32,
}

// What a letter asks of whoever keeps the paths: one path at most for each train and section.
#[derive(Clone, Copy)]
pub enum Change {
    // Keep this path, in place of any other of its train and section.
    Put(Path),
    // Keep no path of this train and section.
    Withdrawal { train: u32, section: u16 },
}

impl Path {
    // The path of these values; none where a put of it would be spoilt.
    pub fn new(train: u32, section: u32, enter: u32, leave: u32) -> Option<Path>
        ensures value { result ≡ path_of train section enter leave }
        ensures good { IfSome result (λ p. in_range (Put p) ≡ true) }
    {
        if !are_train_and_section(train, section) || !are_times(enter, leave) {
            return None;
        }
        Some(Path {
            train,
            section: section as u16,
            enter,
            leave,
        })
    }
}
