// Values that a text between two tags holds.
ghost use Rattle.std.specs.Prelude.{◌≡◌};
ghost use Rattle.std.specs.Option.{option_map};
ghost use Rattle.letter.specs.Letters.{content};
ghost use Rattle.frame_reader.specs.Reading.{Leads, Next, Passes, Textual};
ghost use Rattle.grammar.specs.Grammar.{again_part, one, within};
ghost use Rattle.grammar.specs.Kinds.{Kind, Value, reader};
ghost use Rattle.grammar.specs.Kinds as kind;

use crate::reader::Reader;
use frame::{Identifier, Number};
use letter::Letter;
use pieces::{
    Element, FaultCode, ReadFault, Tag, Token, read_fault_code, read_identifier, read_letter,
    read_number,
};

// A value that a text between two tags spells.
pub(crate) trait Spelt: Copy {
    // The kind of its text, as the grammar has it.
    ghost kind: { Kind };

    // What a value holds of that.
    ghost held: { Self → Value kind };

    // The value whose text this is.
    fn read(text: &[u8]) -> Option<Self>
        ensures { option_map held result ≡ reader kind text.now };

    // That no tag is of the kind.
    ghost textual: { Textual kind };
}

impl Spelt for Identifier {
    ghost kind = { kind.identifier };

    ghost held = { λ i. i.value };

    ghost textual = { tt };

    #[tactic(auto, unfolding(grammar::specs::Kinds::reader))]
    fn read(text: &[u8]) -> Option<Self> {
        read_identifier(text)
    }
}

impl Spelt for Number {
    ghost kind = { kind.number };

    ghost held = { λ n. n.value };

    ghost textual = { tt };

    #[tactic(auto, unfolding(grammar::specs::Kinds::reader))]
    fn read(text: &[u8]) -> Option<Self> {
        read_number(text)
    }
}

impl Spelt for Letter {
    ghost kind = { kind.letter };

    ghost held = { content };

    ghost textual = { tt };

    #[tactic(auto, unfolding(grammar::specs::Kinds::reader))]
    fn read(text: &[u8]) -> Option<Self> {
        read_letter(text)
    }
}

impl Spelt for FaultCode {
    ghost kind = { kind.fault_code };

    ghost held = { λ c. c };

    ghost textual = { tt };

    #[tactic(auto, unfolding(grammar::specs::Kinds::reader))]
    fn read(text: &[u8]) -> Option<Self> {
        read_fault_code(text)
    }
}

impl<'a> Reader<'a> {
    // The value of the text that comes next, and what comes after it.
    #[tactic(auto, using(crate::proofs::Steps::end_read, crate::proofs::Steps::no_text_next))]
    fn next<T: Spelt>(&self) -> Option<(T, &'a [u8])>
        ensures { Next T.kind T.held self.now.rest.now result }
    {
        let lexed = self.piece()?;
        let Token::Text(text) = lexed.token else {
            return None;
        };
        Some((T::read(text)?, lexed.rest))
    }

    // The value of the text that has to come next.
    #[tactic(auto, using(crate::proofs::Steps::text_steps))]
    pub(crate) fn text<T: Spelt>(&mut self) -> Result<T, ReadFault>
        ensures { Leads T.held (one T.kind) self.old self.new result }
    {
        let Some(found) = self.next() else {
            return Err(self.fault());
        };
        let (value, rest) = found;
        self.rest = rest;
        Ok(value)
    }

    // A value in its element. `again` and `detail` write their two tags out: a function over the step between them would
    // have to speak of every type that such a step may hold, and no clause can range over types.
    pub(crate) fn within<T: Spelt>(&mut self, element: Element) -> Result<T, ReadFault>
        ensures { Leads T.held (within element (one T.kind)) self.old self.new result }
    {
        self.expect(Tag::Open(element))?;
        let value = self.text()?;
        self.expect(Tag::Close(element))?;
        Ok(value)
    }

    // The text of this identifier, which has to come next.
    #[tactic(auto, using(crate::proofs::Steps::again_steps))]
    fn again_text(&mut self, identifier: Identifier) -> Result<(), ReadFault>
        ensures { Leads (λ _. tt) (one (kind.again identifier.value)) self.old self.new result }
    {
        let Some((found, rest)) = self.next::<Identifier>() else {
            return Err(self.fault());
        };
        if found != identifier {
            return Err(self.fault());
        }
        self.rest = rest;
        Ok(())
    }

    // The identifier that stood in the receipt before.
    pub(crate) fn again(&mut self, identifier: Identifier) -> Result<(), ReadFault>
        ensures { Passes (again_part identifier.value) self.old self.new result }
    {
        self.expect(Tag::Open(Element::Identifier))?;
        self.again_text(identifier)?;
        self.expect(Tag::Close(Element::Identifier))?;
        Ok(())
    }
}
