// The calls of the two ends, each by its first letter.
use crate::shows::{frame_text, refusal};
use crate::words::{cut, number, small};
use frame::{Frame, Number};
use office::Office;
use planner::{Draft, Planner, PlannerRefusal, Settings};
use std::alloc::{AllocError, Global};

#[derive(Drop)]
pub struct Ends {
    planner: Planner,
    office: Office,
}

impl Ends {
    pub fn new(identifier: u64, gap: u64, limit: u64, admits: bool) -> Option<Ends> {
        let settings = Settings::new(identifier, gap, limit, admits).ok()?;
        Some(ends_of(&settings))
    }

    pub fn call(&mut self, heap: Global, line: &[u8]) -> Result<String, AllocError> {
        let (word, rest) = cut(line);
        match word {
            [b'n', ..] => self.renew(heap, rest),
            [b'o', ..] => framed(heap, self.planner.open()),
            [b'a', ..] => framed(heap, self.planner.ask()),
            [b'c', ..] => framed(heap, self.planner.close()),
            [b'f', ..] => framed(heap, self.planner.finish()),
            [b'w', ..] => self.write(heap, rest),
            [b'p', ..] => self.post(heap, rest),
            [b's', ..] => self.send(heap, rest),
            [b'h', ..] => self.hear(heap, rest),
            [b'r', ..] => self.read(heap, rest),
            [b'd', ..] => self.deliver(heap),
            _ => String::from_str(heap, "unknown"),
        }
    }

    // New ends: identifier, gap, limit, and 1 where the office admits.
    fn renew(&mut self, heap: Global, rest: &[u8]) -> Result<String, AllocError> {
        let (identifier, rest) = cut(rest);
        let (gap, rest) = cut(rest);
        let (limit, admits) = cut(rest);
        match Settings::new(
            number(identifier),
            number(gap),
            number(limit),
            number(admits) == 1,
        ) {
            Ok(settings) => {
                *self = ends_of(&settings);
                String::from_str(heap, "made")
            }
            Err(why) => {
                let number = why.number();
                format!(in heap; "refused {number}")
            }
        }
    }

    fn write(&mut self, heap: Global, rest: &[u8]) -> Result<String, AllocError> {
        let Some(bytes) = hex_text::parse(heap, rest)? else {
            return String::from_str(heap, "no hex");
        };
        numbered(heap, self.planner.write(bytes.as_slice()))
    }

    // Posts a draft of four values; one that is handed back is torn up.
    fn post(&mut self, heap: Global, rest: &[u8]) -> Result<String, AllocError> {
        let (train, rest) = cut(rest);
        let (section, rest) = cut(rest);
        let (enter, leave) = cut(rest);
        match Draft::new(small(train), small(section), small(enter), small(leave)) {
            Ok(draft) => match self.planner.post(draft) {
                Ok(number) => numbered(heap, Ok(number)),
                Err((why, draft)) => {
                    draft.tear();
                    refusal(heap, why)
                }
            },
            Err(why) => {
                let number = why.number();
                format!(in heap; "refused {number}")
            }
        }
    }

    fn send(&mut self, heap: Global, rest: &[u8]) -> Result<String, AllocError> {
        match self.planner.send(number(rest)) {
            Ok(Some(sent)) => {
                let number = sent.number;
                let text = frame_text(heap, &sent.frame)?;
                format!(in heap; "{number} {text}")
            }
            Ok(None) => String::from_str(heap, "nothing"),
            Err(why) => refusal(heap, why),
        }
    }

    fn hear(&mut self, heap: Global, rest: &[u8]) -> Result<String, AllocError> {
        match self.planner.hear(rest) {
            Ok(form) => {
                let form = form.number();
                format!(in heap; "form {form}")
            }
            Err(why) => refusal(heap, why),
        }
    }

    fn read(&mut self, heap: Global, rest: &[u8]) -> Result<String, AllocError> {
        match self.office.read(rest) {
            Ok(answer) => {
                let form = answer.form.number();
                match answer.reply {
                    Some(reply) => {
                        let text = frame_text(heap, &reply)?;
                        format!(in heap; "form {form} {text}")
                    }
                    None => format!(in heap; "form {form}"),
                }
            }
            Err(fault) => {
                let number = fault.number();
                let place = fault.place;
                format!(in heap; "refused {number} {place}")
            }
        }
    }

    // Counts the next letter as delivered, and shows its length.
    fn deliver(&mut self, heap: Global) -> Result<String, AllocError> {
        let len = self
            .office
            .next()
            .map_or(0, |letter| letter.as_slice().len());
        match self.office.delivered() {
            Some(number) => format!(in heap; "{number} of {len} bytes"),
            None => String::from_str(heap, "nothing"),
        }
    }

    // What the two ends keep, by their questions.
    pub fn kept(&self, heap: Global) -> Result<String, AllocError> {
        let state = self.planner.state();
        let written = self.planner.written();
        let lowest = self.planner.lowest();
        let credit = self.planner.credit();
        let receipts = self.receipts(heap, lowest)?;
        let office = self.kept_by_office(heap)?;
        format!(in heap;
            "{state:?} N={written} b={lowest} credit={credit} receipts={receipts} {office}"
        )
    }

    fn receipts(&self, heap: Global, lowest: u64) -> Result<String, AllocError> {
        let mut text = String::new(heap);
        for n in lowest..lowest.saturating_add(8) {
            text.push(mark(self.planner.has_receipt(n)))?;
        }
        Ok(text)
    }

    fn kept_by_office(&self, heap: Global) -> Result<String, AllocError> {
        let state = self.office.state();
        let d = self.office.highest_delivered();
        let mut accepted = String::new(heap);
        for n in d.saturating_add(1)..d.saturating_add(9) {
            accepted.push(mark(self.office.is_accepted(n)))?;
        }
        let last = self.office.last().map_or(0, Number::get);
        let whole = self.office.whole();
        format!(in heap; "{state:?} d={d} accepted={accepted} last={last} whole={whole}")
    }
}

// A digit for yes or no.
fn mark(is: bool) -> char {
    if is { '1' } else { '0' }
}

fn ends_of(settings: &Settings) -> Ends {
    Ends {
        planner: Planner::new(settings),
        office: Office::new(settings.identifier(), settings.admits()),
    }
}

fn framed(heap: Global, answer: Result<Frame, PlannerRefusal>) -> Result<String, AllocError> {
    match answer {
        Ok(frame) => frame_text(heap, &frame),
        Err(why) => refusal(heap, why),
    }
}

fn numbered(heap: Global, answer: Result<u64, PlannerRefusal>) -> Result<String, AllocError> {
    match answer {
        Ok(number) => format!(in heap; "{number}"),
        Err(why) => refusal(heap, why),
    }
}
