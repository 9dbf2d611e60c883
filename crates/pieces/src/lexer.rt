// Cutting off the first piece of a text.
ghost use Rattle.std.specs.Prelude.{◌≡◌, ◌≤◌, length};
ghost use Rattle.pieces.specs.Cuts.{piece_len, shape};
ghost use Rattle.pieces.specs.Tokens.{part_of, shape_of, Lexes};

use crate::bytes::find;
use crate::fault::ReadFault;
use crate::token::{Lexed, Token};

// How many bytes the first piece has.
fn piece_len(bytes: &[u8]) -> usize
    ensures value { result ≡ piece_len bytes.now }
    ensures bound { result ≤ length bytes.now }
{
    match bytes {
        [b'<', ..] => (find(bytes, b'>') + 1).min(bytes.len()),
        _ => find(bytes, b'<'),
    }
}

#[tactic(auto, using(std::proofs::lemmas::List::get_or_past))]
fn token_of(part: &[u8]) -> Token<'_>
    ensures part { part_of result ≡ part.now }
    ensures shape { shape_of result ≡ shape part.now }
{
    match part {
        [b'<', b'/', ..] => Token::Close(part),
        [b'<', ..] if part.ends_with(b"/>") => Token::Empty(part),
        [b'<', ..] => Token::Open(part),
        _ => Token::Text(part),
    }
}

// The first of the bytes that are left of a frame of `whole` bytes, as a piece, and the rest of them.
pub fn lex(whole: usize, bytes: &[u8]) -> Result<Lexed<'_>, ReadFault>
    ensures { Lexes whole bytes.now result }
{
    if bytes.is_empty() {
        return Err(ReadFault { place: whole });
    }
    let (part, rest) = bytes.split_at(piece_len(bytes));
    Ok(Lexed {
        token: token_of(part),
        rest,
    })
}
