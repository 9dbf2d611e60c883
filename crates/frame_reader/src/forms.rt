// Whole frames, by their form.
ghost use Rattle.std.specs.Prelude.{◌≡◌, ℕ, Option};
ghost use Rattle.std.specs.Option.{option_map};
ghost use Rattle.frame.specs.Listed.{listed};
ghost use Rattle.frame.specs.Meanings.{Meaning, meaning};
ghost use Rattle.frame.specs.declared.frame.Frame.{Frame};
ghost use Rattle.frame.specs.Numbers.{Identifier, Number};
ghost use Rattle.frame_reader.specs.Reading.{outcome, onward, Reads};
ghost use Rattle.grammar.specs.Grammar.{ends, only, response, naming_tree, ending_tree, credit_part, after_final, after_receipt, receipt_tree, sequence_tree, fault_tree, grammar, reading};
ghost use Rattle.pieces.specs.declared.token.Tag.TheVariants as tag;

use crate::reader::Reader;
use frame::{Frame, Identifier, Number, Ranges, Receipt};
use pieces::{Element, ReadFault, Tag};

// The frame whose text the bytes are; else the place of the first piece that no form allows there.
pub fn read(bytes: &[u8]) -> Result<Frame, ReadFault>
    ensures value { outcome result ≡ reading bytes.now }
    ensures exact { Reads bytes.now result }
{
    Reader::new(bytes).frame()
}

impl Reader<'_> {
    // The frame that is left. Each form has a question of its own: a `match` would need the element of the tag, which a
    // piece doesn't tell, and one more arm for the elements that begin no form.
    fn frame(&mut self) -> Result<Frame, ReadFault>
        ensures { outcome result ≡ onward self.old grammar }
    {
        if self.takes(Tag::Empty(Element::CreateSequence)) {
            return self.ended(Frame::CreateSequence);
        }
        if self.takes(Tag::Open(Element::CreateSequenceResponse)) {
            return self.naming(Element::CreateSequenceResponse, |identifier| {
                Frame::CreateSequenceResponse { identifier }
            });
        }
        if self.takes(Tag::Open(Element::Sequence)) {
            return self.sequence();
        }
        if self.takes(Tag::Open(Element::AckRequested)) {
            return self.naming(Element::AckRequested, |identifier| {
                Frame::AckRequested { identifier }
            });
        }
        if self.takes(Tag::Open(Element::SequenceAcknowledgement)) {
            return self.receipt();
        }
        if self.takes(Tag::Open(Element::CloseSequence)) {
            return self.ending(Element::CloseSequence, |identifier, last| {
                Frame::CloseSequence { identifier, last }
            });
        }
        if self.takes(Tag::Open(Element::TerminateSequence)) {
            return self.ending(Element::TerminateSequence, |identifier, last| {
                Frame::TerminateSequence { identifier, last }
            });
        }
        if self.takes(Tag::Open(Element::SequenceFault)) {
            return self.fault_frame();
        }
        Err(self.fault())
    }

    // The frame, if nothing is left.
    fn ended(&self, frame: Frame) -> Result<Frame, ReadFault>
        ensures { outcome result ≡ onward self.now (ends (meaning frame)) }
    {
        if self.at_end() {
            Ok(frame)
        } else {
            Err(self.fault())
        }
    }

    // The frame, if the end of this element is all that is left.
    fn closed(&mut self, element: Element, frame: Frame) -> Result<Frame, ReadFault>
        ensures { outcome result ≡ onward self.old (only (tag.Close element) (ends (meaning frame))) }
    {
        self.expect(Tag::Close(element))?;
        self.ended(frame)
    }

    // A frame that is an identifier alone in its element, as `frame` makes it.
    fn naming<F: FnOnce(Identifier) -> Frame>(
        &mut self,
        element: Element,
        frame: F,
    ) -> Result<Frame, ReadFault>
        ghost make: { ℕ → Meaning }
        requires can { F.IsAlwaysCallable frame }
        requires makes { (i : Identifier) (f : Frame) → F.post frame i f → meaning f ≡ make i.value }
        ensures { outcome result ≡ onward self.old (naming_tree element make) }
    {
        let identifier = self.identifier()?;
        self.closed(element, frame(identifier))
    }

    // A frame that is an identifier and, if it is there, the last message number, as `frame` makes it.
    fn ending<F: FnOnce(Identifier, Option<Number>) -> Frame>(
        &mut self,
        element: Element,
        frame: F,
    ) -> Result<Frame, ReadFault>
        ghost make: { ℕ → Option ℕ → Meaning }
        requires can { F.IsAlwaysCallable frame }
        requires makes { (i : Identifier) (m : Option Number) (f : Frame) → F.post frame i m f
            → meaning f ≡ make i.value (option_map (λ n. n.value) m) }
        ensures { outcome result ≡ onward self.old (ending_tree element make) }
    {
        let identifier = self.identifier()?;
        let last = self.last()?;
        self.closed(element, frame(identifier, last))
    }

    fn sequence(&mut self) -> Result<Frame, ReadFault>
        ensures { outcome result ≡ onward self.old sequence_tree }
    {
        let identifier = self.identifier()?;
        let number = self.within(Element::MessageNumber)?;
        self.expect(Tag::Close(Element::Sequence))?;
        let letter = self.within(Element::Letter)?;
        self.ended(Frame::Sequence {
            identifier,
            number,
            letter,
        })
    }

    // A receipt, alone or with a response behind it.
    #[tactic(auto, using(crate::proofs::Steps::takes_final))]
    fn receipt(&mut self) -> Result<Frame, ReadFault>
        ensures { outcome result ≡ onward self.old receipt_tree }
    {
        let identifier = self.identifier()?;
        let ranges = self.ranges()?;
        let is_final = self.takes(Tag::Empty(Element::Final));
        self.after_mark(identifier, ranges, is_final)
    }

    // The credit of a receipt, and what may come behind that.
    fn after_mark(
        &mut self,
        identifier: Identifier,
        ranges: Ranges,
        is_final: bool,
    ) -> Result<Frame, ReadFault>
        ensures { outcome result ≡ onward self.old
            (credit_part (after_receipt identifier.value (listed ranges) is_final)) }
    {
        let credit = self.credit()?;
        let receipt = Receipt {
            identifier,
            ranges,
            credit,
        };
        if self.at_end() {
            return Ok(Frame::SequenceAcknowledgement { receipt, is_final });
        }
        if !is_final {
            return Err(self.fault());
        }
        self.after_final(receipt)
    }

    // What may come behind a final receipt.
    fn after_final(&mut self, receipt: Receipt) -> Result<Frame, ReadFault>
        ensures { outcome result ≡ onward self.old
            (after_final receipt.identifier.value (listed receipt.ranges) receipt.credit.value) }
    {
        if self.takes(Tag::Open(Element::CloseSequenceResponse)) {
            return self.response(
                Element::CloseSequenceResponse,
                receipt.identifier,
                Frame::CloseSequenceResponse { receipt },
            );
        }
        if self.takes(Tag::Open(Element::TerminateSequenceResponse)) {
            return self.response(
                Element::TerminateSequenceResponse,
                receipt.identifier,
                Frame::TerminateSequenceResponse { receipt },
            );
        }
        Err(self.fault())
    }

    // The identifier of the receipt before, and the end of its element and of the frame.
    fn response(
        &mut self,
        element: Element,
        identifier: Identifier,
        frame: Frame,
    ) -> Result<Frame, ReadFault>
        ensures { outcome result ≡ onward self.old (response element identifier.value (meaning frame)) }
    {
        self.again(identifier)?;
        self.closed(element, frame)
    }

    fn fault_frame(&mut self) -> Result<Frame, ReadFault>
        ensures { outcome result ≡ onward self.old fault_tree }
    {
        let fault = self.sequence_fault()?;
        self.closed(Element::SequenceFault, Frame::SequenceFault { fault })
    }
}
