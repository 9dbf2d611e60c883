ghost use Rattle.std.specs.Prelude.{◌≡◌};
ghost use Rattle.pieces.specs.Tokens.{is_tag};

use crate::bytes::encloses;
use crate::names::Element;

// A piece of a frame, by its shape. Each case holds all bytes of the piece, `<` and `>` too.
#[derive(Clone, Copy)]
pub enum Token<'a> {
    Open(&'a [u8]),
    Close(&'a [u8]),
    Empty(&'a [u8]),
    Text(&'a [u8]),
}

// A piece, and what comes after it.
#[derive(Clone, Copy)]
pub struct Lexed<'a> {
    pub token: Token<'a>,
    pub rest: &'a [u8],
}

// A tag that a form has: of an element's beginning, of its end, or of one that holds nothing.
#[derive(Clone, Copy)]
pub enum Tag {
    Open(Element),
    Close(Element),
    Empty(Element),
}

impl Token<'_> {
    // Whether the piece is this tag.
    pub fn is_tag(self, tag: Tag) -> bool
        ensures { result ≡ is_tag self.entry tag }
    {
        match (self, tag) {
            (Token::Open(part), Tag::Open(e)) => encloses(part, b"<", e.name(), b">"),
            (Token::Close(part), Tag::Close(e)) => encloses(part, b"</", e.name(), b">"),
            (Token::Empty(part), Tag::Empty(e)) => encloses(part, b"<", e.name(), b"/>"),
            _ => false,
        }
    }
}
