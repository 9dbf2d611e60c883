// Going through the pieces of a frame.
ghost use Rattle.std.specs.Prelude.{◌≡◌, length, Err, MatchOption};
ghost use Rattle.frame_reader.specs.Reading.{onward, AtEnd, Passes, Takes};
ghost use Rattle.grammar.specs.Grammar.{only, tagged};
ghost use Rattle.grammar.specs.Trees.{Tree, stop, walk};
ghost use Rattle.pieces.specs.Tokens.{First};

use pieces::{Lexed, ReadFault, Tag, lex};

// What is left of a frame of `whole` bytes.
#[derive(Clone, Copy)]
pub(crate) struct Reader<'a> {
    pub(crate) whole: usize,
    pub(crate) rest: &'a [u8],
}

impl<'a> Reader<'a> {
    // The reader of a whole frame.
    pub(crate) fn new(bytes: &'a [u8]) -> Reader<'a>
        ensures { (g : Tree) → onward result g ≡ walk (length bytes.now) g bytes.now }
    {
        Reader {
            whole: bytes.len(),
            rest: bytes,
        }
    }

    // The fault at the next piece.
    #[tactic(auto, using(grammar::proofs::Walks::walk_stop))]
    pub(crate) fn fault(&self) -> ReadFault
        ensures { onward self.now stop ≡ Err result.place }
    {
        ReadFault {
            place: self.whole.saturating_sub(self.rest.len()),
        }
    }

    // Whether nothing is left.
    #[tactic(auto, using(crate::proofs::Steps::told_end))]
    pub(crate) fn at_end(&self) -> bool
        ensures { AtEnd self.now result }
    {
        self.rest.is_empty()
    }

    // The next piece, and what comes after it.
    #[tactic(auto, using(crate::proofs::Steps::cuts))]
    pub(crate) fn piece(&self) -> Option<Lexed<'a>>
        ensures { MatchOption result (length self.now.rest.now ≡ 0) (First self.now.rest.now) }
    {
        lex(self.whole, self.rest).ok()
    }

    // Takes the tag if it comes next, and answers whether it did.
    #[tactic(auto, using(crate::proofs::Steps::tag_steps))]
    pub(crate) fn takes(&mut self, tag: Tag) -> bool
        ensures { Takes tag self.old self.new result }
    {
        match self.piece() {
            Some(lexed) if lexed.token.is_tag(tag) => {
                self.rest = lexed.rest;
                true
            }
            _ => false,
        }
    }

    // Takes the tag, which has to come next.
    pub(crate) fn expect(&mut self, tag: Tag) -> Result<(), ReadFault>
        ensures { Passes (only tag) self.old self.new result }
    {
        if self.takes(tag) {
            Ok(())
        } else {
            Err(self.fault())
        }
    }
}
