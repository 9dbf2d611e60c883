// What has a text, and how texts are put together.
ghost use Rattle.std.specs.Prelude.{◌≤◌, List, ℕ, length, ◌++◌, flat_map};
ghost use Rattle.frame_writer.specs.Putting.{Puts, text_if_any};
ghost use Rattle.grammar.specs.Texts.{enclosed};
ghost use Rattle.pieces.specs.Tags.{tag_text};

use pieces::{Element, Tag};

// What has a text. `Display` was tried in its place: by its contract a `write!` may fail, and `write` never does.
pub(crate) trait Text {
    ghost text: { Self → List ℕ };

    // Writes the text into the front of `out`, and answers its length.
    fn put(self, out: &mut [u8]) -> usize
        requires { length (text self) ≤ length out.old }
        ensures { Puts out.old (text self) out.new result };
}

// Bytes as they are.
impl Text for &[u8] {
    ghost text = { λ s. s.now };

    fn put(self, out: &mut [u8]) -> usize {
        out[..self.len()].copy_from_slice(self);
        self.len()
    }
}

impl Text for &str {
    ghost text = { λ s. s.now };

    fn put(self, out: &mut [u8]) -> usize {
        self.as_bytes().put(out)
    }
}

// One text behind another.
impl<A: Text, B: Text> Text for (A, B) {
    ghost text = { λ p. A.text p.0 ++ B.text p.1 };

    fn put(self, out: &mut [u8]) -> usize {
        let (first, second) = self;
        let len = first.put(out);
        len + second.put(&mut out[len..])
    }
}

// The text of what is there, or nothing.
impl<T: Text> Text for Option<T> {
    ghost text = { text_if_any T.text };

    fn put(self, out: &mut [u8]) -> usize {
        match self {
            Some(part) => part.put(out),
            None => 0,
        }
    }
}

// The texts of all, one behind another.
pub(crate) struct Each<'a, T>(pub(crate) &'a [T]);

#[tactic(auto, using(crate::proofs::Written::row_room))]
impl<T: Text + Copy> Text for Each<'_, T> {
    ghost text = { λ e. flat_map T.text e.0.now };

    fn put(self, out: &mut [u8]) -> usize {
        let Each(parts) = self;
        let mut len = 0;
        for part in parts {
            len += part.put(&mut out[len..]);
        }
        len
    }
}

#[tactic(auto, unfolding(pieces::specs::Tags::tag_text))]
impl Text for Tag {
    ghost text = { tag_text };

    fn put(self, out: &mut [u8]) -> usize {
        match self {
            Tag::Open(e) => ("<", (e.name(), ">")).put(out),
            Tag::Close(e) => ("</", (e.name(), ">")).put(out),
            Tag::Empty(e) => ("<", (e.name(), "/>")).put(out),
        }
    }
}

// An element, and what stands between its two tags.
pub(crate) struct Enclosed<T>(pub(crate) Element, pub(crate) T);

impl<T: Text> Text for Enclosed<T> {
    ghost text = { λ e. enclosed e.0 (T.text e.1) };

    fn put(self, out: &mut [u8]) -> usize {
        let Enclosed(element, inner) = self;
        (Tag::Open(element), (inner, Tag::Close(element))).put(out)
    }
}
