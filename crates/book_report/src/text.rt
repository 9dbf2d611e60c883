ghost use Rattle.book_report.specs.Lines.{outcome_text, path_text};
ghost use Rattle.std.specs.Prelude.{Some};

use crate::outcome::Outcome;
use letter::{Change, Path};
use std::fmt;

impl fmt::Display for Outcome {
    ghost output = { λ o. Some (outcome_text o) };

    fn fmt<W: fmt::Write>(&self, f: &mut fmt::Formatter<W>) -> fmt::Result {
        match self {
            Outcome::Done(
                Change::Put(
                    Path {
                        train,
                        section,
                        enter,
                        leave,
                    },
                ),
            ) => {
                write!(
                    f,
                    "put train={train} section={section} enter={enter} leave={leave}"
                )
            }
            Outcome::Done(Change::Withdrawal { train, section }) => write!(
                f,
                "withdrawal train={train} section={section}"
            ),
            Outcome::Spoilt => write!(f, "spoilt"),
            Outcome::Refused => write!(f, "refused"),
            Outcome::NotHex => write!(f, "error hex"),
        }
    }
}

// A path as it is shown at the end.
#[derive(Drop)]
pub struct PathLine(pub Path);

impl fmt::Display for PathLine {
    ghost output = { λ l. Some (path_text l.0) };

    fn fmt<W: fmt::Write>(&self, f: &mut fmt::Formatter<W>) -> fmt::Result {
        let Path {
            train,
            section,
            enter,
            leave,
        } = self.0;
        write!(f, "path {train} {section} {enter} {leave}")
    }
}
