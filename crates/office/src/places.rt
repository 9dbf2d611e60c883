ghost use Rattle.std.specs.Prelude.{◌≡◌, ◌+◌, ◌<◌, ◌≤◌, ◌&&◌, IfSome, None, length, replicate, slice_index_or};
ghost use Rattle.std.specs.Option.{option_map};
ghost use Rattle.frame.specs.Bounds.{M};
ghost use Rattle.frame.specs.Listed.{listed};
ghost use Rattle.office.specs.Accepted.{accepted_at};
ghost use Rattle.office.specs.Deliveries.{first, number_of, left};
ghost use Rattle.office.specs.Places.{has_place, is_free, kept, place_if, place_of, Numbered};
ghost use Rattle.office.specs.Ranges.{runs};
ghost use Rattle.office.specs.Wholes.{front};

use crate::runs::{name_ended, name_run, start_past};
use frame::{Number, Ranges};
use letter::Letter;

// How many places there are.
const PLACES: usize = 8;

// The letters that are accepted and not delivered yet. Place k is that of message number delivered + 1 + k.
// An array by place: an end needs no heap and is copied, and the rules give a number its place by a difference.
#[derive(Clone, Copy)]
pub(crate) struct Places {
    // All message numbers up to this one are delivered.
    delivered: u64,
    letters: [Option<Letter>; PLACES],
    ghost eight: { length letters ≡ 8 },
    ghost counted: { delivered ≤ M },
    ghost numbered: { Numbered delivered letters },
}

impl Places {
    // Nothing is accepted.
    pub(crate) fn new() -> Places
        ensures delivered { result.delivered ≡ 0 }
        ensures letters { result.letters ≡ replicate 8 None }
    {
        Places {
            delivered: 0,
            letters: [None; PLACES],
        }
    }

    // All message numbers up to this one are delivered.
    pub(crate) fn delivered(&self) -> u64
        ensures value { result ≡ self.now.delivered }
        ensures most { result ≤ M }
    {
        self.delivered
    }

    // The place of the message number, if it has one.
    fn place(&self, number: u64) -> Option<usize>
        ensures value { result ≡ place_if self.now.delivered number }
        ensures within { IfSome result (λ k. k < 8) }
    {
        if self.delivered < number && number <= self.delivered + 8 {
            Some((number - self.delivered - 1) as usize)
        } else {
            None
        }
    }

    // Keeps the letter, if its message number has a place and that is free: the first letter of a number stays.
    pub(crate) fn keep(&mut self, number: Number, letter: Letter)
        ensures delivered { self.new.delivered ≡ self.old.delivered }
        ensures letters { self.new.letters ≡ kept
            (has_place self.old.delivered number.value
            && is_free (slice_index_or self.old.letters (place_of self.old.delivered number.value) None))
            self.old.letters (place_of self.old.delivered number.value) letter }
    {
        if let Some(place) = self.place(number.get()) {
            if self.letters[place].is_none() {
                self.letters[place] = Some(letter);
            }
        }
    }

    // The letter in the first place.
    pub(crate) fn first(&self) -> Option<&Letter>
        ensures { option_map (λ x. x.now) result ≡ first self.now.letters }
    {
        self.letters[0].as_ref()
    }

    // Takes the letter out of the first place, makes room behind the last, and answers its message number.
    pub(crate) fn deliver(&mut self) -> Option<u64>
        ensures number { result ≡ number_of self.old.delivered (first self.old.letters) }
        ensures delivered { self.new.delivered ≡ (left self.old.delivered self.old.letters).0 }
        ensures letters { self.new.letters ≡ (left self.old.delivered self.old.letters).1 }
    {
        self.first()?;
        self.letters.rotate_left(1);
        self.letters[PLACES - 1] = None;
        self.delivered += 1;
        Some(self.delivered)
    }

    // Whether the message number is delivered, or its letter stands in its place.
    pub(crate) fn is_accepted(&self, number: u64) -> bool
        ensures { result ≡ accepted_at self.now.delivered self.now.letters number }
    {
        match self.place(number) {
            Some(place) => self.letters[place].is_some(),
            None => 1 <= number && number <= self.delivered,
        }
    }

    // All message numbers up to this one are accepted, and the next one is not.
    pub(crate) fn reached(&self) -> u64
        ensures { result ≡ self.now.delivered + front self.now.letters }
    {
        self.delivered + front(&self.letters) as u64
    }

    // The ranges of all accepted numbers.
    pub(crate) fn ranges(&self) -> Ranges
        ensures { listed result ≡ runs 1 (self.now.delivered + 1) self.now.letters }
    {
        let mut ranges = Ranges::new();
        let mut lower = 1;
        for (k, place) in self.letters.iter().enumerate() {
            let next = self.delivered + 1 + k as u64;
            name_ended(&mut ranges, place, lower, next);
            lower = start_past(place, lower, next);
        }
        name_run(&mut ranges, lower, self.delivered + 9);
        ranges
    }
}

// How many letters stand in front without a gap.
fn front(letters: &[Option<Letter>; PLACES]) -> usize
    ensures value { result ≡ front letters.now }
    ensures few { result ≤ 8 }
{
    letters
        .iter()
        .position(|letter| letter.is_none())
        .unwrap_or(PLACES)
}
