ghost use Rattle.std.specs.Prelude.{◌≡◌, ◌≤◌, [], ◌∷◌, IfOk, Some, None};
ghost use Rattle.letter.specs.declared.change.Change.TheVariants.{Put, Withdrawal};
ghost use Rattle.taker.specs.BookLaws.{HoldsLastWord, Ordered, Taken};
ghost use Rattle.taker.specs.Books.{book_page, book_step, change_step, one_more, sized_of_book};
ghost use Rattle.taker.specs.Steps.{Follows, Takes};

use super::Book;
use super::paths::Paths;
use crate::refusal::TakerRefusal;
use crate::taker::Taker;
use letter::{Change, Path, decode, is_letter};
use std::alloc::{AllocError, Global};

impl Book {
    // An empty book. All its memory is taken here.
    pub fn new(heap: Global) -> Result<Book, AllocError>
        ensures { IfOk result (λ b. book_page b ≡ 0 ∷ []) }
    {
        let paths = Paths::new(heap)?;
        Ok(Book { spoilt: 0, paths })
    }
}

impl Taker for Book {
    ghost page = { book_page };

    ghost step = { book_step };

    ghost sized = { sized_of_book };

    fn take(&mut self, letter: &[u8]) -> Result<(), TakerRefusal>
        ensures step { Takes book_step
            (book_page self.old) letter.now result (book_page self.new) }
        ensures laws { Taken letter.now (book_page self.old) result (book_page self.new) }
        ensures ordered { Ordered (book_page self.new) }
        ensures runs { HoldsLastWord }
    {
        self.follow(letter)
    }
}

impl Book {
    // Does what the letter asks for, and counts it where it is spoilt.
    fn follow(&mut self, letter: &[u8]) -> Result<(), TakerRefusal>
        ensures { Takes book_step
            (book_page self.old) letter.now result (book_page self.new) }
    {
        if !is_letter(letter) {
            return Err(TakerRefusal::NoPage);
        }
        match decode(letter) {
            Some(Change::Put(p)) => self.put(p),
            Some(Change::Withdrawal { train, section }) => {
                self.withdraw(train, section);
                Ok(())
            }
            None => {
                self.spoil();
                Ok(())
            }
        }
    }

    fn put(&mut self, p: Path) -> Result<(), TakerRefusal>
        ensures { Follows (change_step (book_page self.old) (Some (Put p)))
            (book_page self.old) result (book_page self.new) }
    {
        self.paths.put(p)
    }

    fn withdraw(&mut self, train: u32, section: u16)
        ensures { Some (book_page self.new) ≡
            change_step (book_page self.old) (Some (Withdrawal train section)) }
    {
        self.paths.remove(train, section);
    }

    fn spoil(&mut self)
        ensures { Some (book_page self.new) ≡ change_step (book_page self.old) None }
    {
        self.spoilt = one_more(self.spoilt);
    }
}

// The count after one more spoilt letter.
fn one_more(count: u64) -> u64
    requires { count ≤ 9223372036854775807 }
    ensures { result ≡ one_more count }
{
    (count + 1).min(9_223_372_036_854_775_807)
}
