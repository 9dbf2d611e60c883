ghost use Rattle.std.specs.Prelude.{◌≡◌, Some, MatchResult};
ghost use Rattle.hex_text.specs.Hex.{parsed};
ghost use Rattle.book_report.specs.Outcomes.{Handled, taken_as};
ghost use Rattle.taker.specs.Books.{book_page};

use letter::{Change, decode};
use std::alloc::{AllocError, Global};
use taker::{Book, Taker, TakerRefusal};

// What became of one line of input.
#[derive(Clone, Copy)]
pub enum Outcome {
    // The book took a letter that asks for this change.
    Done(Change),
    // The book took a spoilt letter, and counted it.
    Spoilt,
    // The book did not take it.
    Refused,
    // The line is no hex.
    NotHex,
}

// Hands the letter that the line writes to the book; where memory fails, the book is as it was.
pub fn handle(heap: Global, book: &mut Book, line: &[u8]) -> Result<Outcome, AllocError>
    ensures { MatchResult result
        (λ o. Handled (book_page book.old) (parsed line.now) o (book_page book.new))
        (λ _. book.new ≡ book.old) }
{
    let Some(bytes) = hex_text::parse(heap, line)? else {
        return Ok(Outcome::NotHex);
    };
    Ok(hand_over(book, bytes.as_slice()))
}

fn hand_over(book: &mut Book, letter: &[u8]) -> Outcome
    ensures { Handled (book_page book.old) (Some letter.now) result (book_page book.new) }
{
    let answer = book.take(letter);
    read_as(answer, decode(letter))
}

fn read_as(answer: Result<(), TakerRefusal>, change: Option<Change>) -> Outcome
    ensures { result ≡ taken_as answer change }
{
    match (answer, change) {
        (Err(_), _) => Outcome::Refused,
        (Ok(()), Some(change)) => Outcome::Done(change),
        (Ok(()), None) => Outcome::Spoilt,
    }
}
