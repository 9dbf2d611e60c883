// The values that stand in frames, each with its text.
ghost use Rattle.std.specs.Prelude.{◌≡◌, ◌<◌, ◌++◌, ◌∷◌, [], ◌/◌, ◌%◌, decimal};
ghost use Rattle.std.specs.Option.{option_map};
ghost use Rattle.frame.specs.Listed.{listed};
ghost use Rattle.frame.specs.Meanings.{fault_meaning, AllBytes};
ghost use Rattle.frame_writer.specs.Putting.{text_if_any};
ghost use Rattle.grammar.specs.Texts.{enclosed, identifier_text, last_text, ranges_text, final_text, receipt_text, detail_text, fault_text};
ghost use Rattle.pieces.specs.Attributes.{range_text};
ghost use Rattle.pieces.specs.Hex.{hex_char, hex_text};
ghost use Rattle.pieces.specs.Names.{fault_name};
ghost use Rattle.pieces.specs.Tags.{tag_text};
ghost use Rattle.pieces.specs.declared.names.Element.TheVariants as element;

use crate::text::{Each, Enclosed, Text};
use frame::{Fault, Identifier, Number, Range, Ranges, Receipt};
use itoa::Buffer;
use pieces::{Element, FaultCode, Tag};

// A number in decimal.
impl Text for u64 {
    ghost text = { decimal };

    fn put(self, out: &mut [u8]) -> usize {
        Buffer::new().format(self).put(out)
    }
}

// A byte of a letter, as two of 0-9A-F.
impl Text for u8 {
    ghost text = { λ b. hex_char (b / 16) ∷ hex_char (b % 16) ∷ [] };

    fn put(self, out: &mut [u8]) -> usize {
        let digits = [hex_digit(self / 16), hex_digit(self % 16)];
        digits.as_slice().put(out)
    }
}

// One of 0-9A-F. By hand, since a `{b:02X}` may fail by its contract (tried), and `hex` writes 0-9a-f into memory.
fn hex_digit(d: u8) -> u8
    requires { d < 16 }
    ensures { result ≡ hex_char d }
{
    b"0123456789ABCDEF"[usize::from(d)]
}

// Bytes, each in hex.
#[tactic(auto, using(crate::proofs::Written::hex_pairs))]
pub(crate) fn hex(bytes: &[u8]) -> Each<'_, u8>
    ensures text { ⟦<Each<'static, u8> as Text>⟧.text result ≡ hex_text bytes.now }
    ensures fits { AllBytes bytes.now }
{
    Each(bytes)
}

#[tactic(auto, unfolding(grammar::specs::Texts::identifier_text))]
impl Text for Identifier {
    ghost text = { λ i. identifier_text i.value };

    fn put(self, out: &mut [u8]) -> usize {
        Enclosed(Element::Identifier, ("urn:path:", self.get())).put(out)
    }
}

impl Text for Number {
    ghost text = { λ m. decimal m.value };

    fn put(self, out: &mut [u8]) -> usize {
        self.get().put(out)
    }
}

// The last number, if there is one.
#[tactic(auto, unfolding(grammar::specs::Texts::last_text))]
pub(crate) fn last_number(last: Option<Number>) -> Option<Enclosed<Number>>
    ensures { ⟦<Option<Enclosed<Number>> as Text>⟧.text result ≡ last_text (option_map (λ m. m.value) last) }
{
    last.map(|m| Enclosed(Element::LastMsgNumber, m))
}

#[tactic(auto, unfolding(pieces::specs::Attributes::range_text))]
impl Text for Range {
    ghost text = { range_text };

    fn put(self, out: &mut [u8]) -> usize {
        let lower = ("\" Lower=\"", (self.lower, "\"/>"));
        ("<wsrm:AcknowledgementRange Upper=\"", (self.upper, lower)).put(out)
    }
}

// The ranges of a receipt, or that there are none.
#[tactic(auto, using(crate::proofs::Written::ranges_some), unfolding(grammar::specs::Texts::ranges_text))]
impl Text for Ranges {
    ghost text = { λ r. ranges_text (listed r) };

    fn put(self, out: &mut [u8]) -> usize {
        match self.as_slice() {
            [] => Tag::Empty(Element::Nothing).put(out),
            ranges => Each(ranges).put(out),
        }
    }
}

// A receipt, and whether it is final.
pub(crate) struct Acknowledgement(pub(crate) Receipt, pub(crate) bool);

#[tactic(auto, unfolding(grammar::specs::Texts::receipt_text, grammar::specs::Texts::final_text))]
impl Text for Acknowledgement {
    ghost text = { λ a. receipt_text a.0.identifier.value (listed a.0.ranges) a.1 a.0.credit.value };

    fn put(self, out: &mut [u8]) -> usize {
        let Acknowledgement(receipt, is_final) = self;
        let mark = is_final.then_some(Tag::Empty(Element::Final));
        let behind = (mark, Enclosed(Element::Credit, receipt.credit));
        let parts = (receipt.identifier, (receipt.ranges, behind));
        Enclosed(Element::SequenceAcknowledgement, parts).put(out)
    }
}

impl Text for FaultCode {
    ghost text = { fault_name };

    fn put(self, out: &mut [u8]) -> usize {
        self.name().put(out)
    }
}

#[tactic(auto, unfolding(grammar::specs::Texts::fault_text))]
impl Text for Fault {
    ghost text = { λ f. fault_text (fault_meaning f) };

    fn put(self, out: &mut [u8]) -> usize {
        match self {
            Fault::UnknownSequence(i) => about(FaultCode::UnknownSequence, i).put(out),
            Fault::SequenceTerminated(i) => about(FaultCode::SequenceTerminated, i).put(out),
            Fault::SequenceClosed(i) => about(FaultCode::SequenceClosed, i).put(out),
            Fault::CreateSequenceRefused => {
                Enclosed(Element::FaultCode, FaultCode::CreateSequenceRefused).put(out)
            }
        }
    }
}

// A fault's name, and the sequence that it is about.
#[tactic(auto, unfolding(grammar::specs::Texts::detail_text))]
fn about(code: FaultCode, identifier: Identifier) -> (Enclosed<FaultCode>, Enclosed<Identifier>)
    ensures { ⟦<(Enclosed<FaultCode>, Enclosed<Identifier>) as Text>⟧.text result
        ≡ enclosed element.FaultCode (fault_name code) ++ detail_text identifier.value }
{
    (
        Enclosed(Element::FaultCode, code),
        Enclosed(Element::Detail, identifier),
    )
}
