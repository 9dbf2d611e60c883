ghost use Rattle.std.specs.Prelude.{◌≡◌, ◌+◌, ◌≤◌, [], ◌++◌, length, IfOk, vec_len};
ghost use Rattle.taker.specs.Journals.{entry, journal_page, journal_step, number_at, ShowsEntries, sized_of_journal};

use super::{Journal, MOST};
use crate::refusal::TakerRefusal;
use crate::taker::Taker;
use letter::is_letter;
use std::alloc::{AllocError, Global};

impl Journal {
    // An empty journal. All its memory is taken here.
    pub fn new(heap: Global) -> Result<Journal, AllocError>
        ensures page { IfOk result (λ j. journal_page j ≡ []) }
        ensures runs { ShowsEntries }
    {
        let numbers = Vec::with_capacity(heap, MOST)?;
        Ok(Journal { numbers })
    }

    // Number i of the page, from 0; none past the last.
    pub fn number(&self, i: usize) -> Option<u8>
        ensures { result ≡ number_at (journal_page self.now) i }
    {
        self.numbers.get(i).copied()
    }

    // Adds the letter's length and its bytes.
    fn add(&mut self, letter: &[u8])
        requires short { length letter.now ≤ 48 }
        requires room { vec_len self.old.numbers + (1 + length letter.now) ≤ 4096 }
        ensures { journal_page self.new ≡ journal_page self.old ++ entry letter.now }
    {
        self.numbers.push_reserved(letter.len() as u8);
        self.numbers.extend_from_slice(letter).unwrap();
    }
}

impl Taker for Journal {
    ghost page = { journal_page };

    ghost step = { journal_step };

    ghost sized = { sized_of_journal };

    fn take(&mut self, letter: &[u8]) -> Result<(), TakerRefusal> {
        if !is_letter(letter) || letter.len() + 1 > MOST - self.numbers.len() {
            return Err(TakerRefusal::NoPage);
        }
        self.add(letter);
        Ok(())
    }
}
