use crate::outcome::handle;
use crate::text::PathLine;
use std::io::{BufRead, BufReader};
use taker::Book;

// Reads letters in hex from standard input, one a line, and hands each to a book of paths.
// Prints what became of each, numbered, and at the end the count of spoilt letters and the paths.
pub fn run(rt: &HostRuntime) -> anyhow::Result<()> {
    let mut book = Book::new(rt.alloc())?;
    let mut printed: u64 = 0;
    for line in BufReader::new(rt.alloc(), rt.stdin())?.split(rt.alloc(), b'\n') {
        let line = line?;
        let text = line.as_slice().trim_ascii();
        if matches!(text, [] | [b'#', ..]) {
            continue;
        }
        let outcome = handle(rt.alloc(), &mut book, text)?;
        printed = printed.saturating_add(1);
        println!(rt; "{printed} {outcome}")?;
    }
    show(rt, &book)
}

// Prints the count of spoilt letters, and then each path.
fn show(rt: &HostRuntime, book: &Book) -> anyhow::Result<()> {
    let count = book.count();
    println!(rt; "spoilt {count}")?;
    for path in book.paths() {
        let line = PathLine(*path);
        println!(rt; "{line}")?;
    }
    Ok(())
}
