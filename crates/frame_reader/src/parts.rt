// Parts of a frame that stand in several forms.
ghost use Rattle.std.specs.Prelude.{◌≡◌, [], ◌∷◌};
ghost use Rattle.std.specs.Option.{option_map};
ghost use Rattle.frame.specs.Listed.{listed};
ghost use Rattle.frame.specs.Meanings.{fault_meaning};
ghost use Rattle.frame_reader.specs.Reading.{Leads, NextRange, TakesRange};
ghost use Rattle.grammar.specs.Grammar.{identifier_part, ranges_part, more_ranges, credit_part, last_part, detail_part, fault_part, one, within};
ghost use Rattle.grammar.specs.Kinds.{range_behind};
ghost use Rattle.pieces.specs.declared.names.Element.TheVariants as element;

use crate::reader::Reader;
use frame::{Fault, Identifier, Number, Range, Ranges};
use pieces::{Element, FaultCode, ReadFault, Tag, Token, read_range};

impl<'a> Reader<'a> {
    pub(crate) fn identifier(&mut self) -> Result<Identifier, ReadFault>
        ensures { Leads (λ i. i.value) identifier_part self.old self.new result }
    {
        self.within(Element::Identifier)
    }

    // The credit, and the end of the receipt.
    pub(crate) fn credit(&mut self) -> Result<Number, ReadFault>
        ensures { Leads (λ n. n.value) credit_part self.old self.new result }
    {
        let credit = self.within(Element::Credit)?;
        self.expect(Tag::Close(Element::SequenceAcknowledgement))?;
        Ok(credit)
    }

    // The last message number, if it is there.
    pub(crate) fn last(&mut self) -> Result<Option<Number>, ReadFault>
        ensures { Leads (option_map (λ n. n.value)) last_part self.old self.new result }
    {
        if !self.takes(Tag::Open(Element::LastMsgNumber)) {
            return Ok(None);
        }
        let last = self.text()?;
        self.expect(Tag::Close(Element::LastMsgNumber))?;
        Ok(Some(last))
    }

    pub(crate) fn ranges(&mut self) -> Result<Ranges, ReadFault>
        ensures { Leads listed ranges_part self.old self.new result }
    {
        if self.takes(Tag::Empty(Element::Nothing)) {
            return Ok(Ranges::new());
        }
        self.some_ranges()
    }

    // One range or more.
    #[tactic(auto, using(crate::proofs::Steps::first_off, crate::proofs::Steps::more_on))]
    fn some_ranges(&mut self) -> Result<Ranges, ReadFault>
        ensures { Leads listed (λ k. one (range_behind []) (λ x. more_ranges 4 (x ∷ []) k)) self.old self.new result }
    {
        let mut ranges = Ranges::new();
        if !self.takes_range(&mut ranges) {
            return Err(self.fault());
        }
        while self.takes_range(&mut ranges) {}
        Ok(ranges)
    }

    // The range that comes next, and what comes after it.
    #[tactic(auto, using(crate::proofs::Steps::range_steps))]
    fn range(&self) -> Option<(Range, &'a [u8])>
        ensures { NextRange self.now.rest.now result }
    {
        let lexed = self.piece()?;
        let Token::Empty(part) = lexed.token else {
            return None;
        };
        Some((read_range(part)?, lexed.rest))
    }

    // Takes a range that may stand behind these if it comes next, and answers whether it did.
    #[tactic(auto, using(crate::proofs::Steps::no_range_steps))]
    fn takes_range(&mut self, ranges: &mut Ranges) -> bool
        ensures { TakesRange self.old self.new
            (listed ranges.old) (listed ranges.new) result }
    {
        let Some((range, rest)) = self.range() else {
            return false;
        };
        if !ranges.push(range) {
            return false;
        }
        self.rest = rest;
        true
    }

    pub(crate) fn sequence_fault(&mut self) -> Result<Fault, ReadFault>
        ensures { Leads fault_meaning fault_part self.old self.new result }
    {
        let code = self.within(Element::FaultCode)?;
        let fault = self.about(code)?;
        Ok(fault)
    }

    // What a fault of this name is about.
    #[tactic(auto, using(crate::proofs::Steps::detail_steps))]
    fn about(&mut self, code: FaultCode) -> Result<Fault, ReadFault>
        ensures { Leads fault_meaning (detail_part code) self.old self.new result }
    {
        match code {
            FaultCode::UnknownSequence => Ok(Fault::UnknownSequence(self.detail()?)),
            FaultCode::SequenceTerminated => Ok(Fault::SequenceTerminated(self.detail()?)),
            FaultCode::SequenceClosed => Ok(Fault::SequenceClosed(self.detail()?)),
            FaultCode::CreateSequenceRefused => Ok(Fault::CreateSequenceRefused),
        }
    }

    // The identifier of the sequence that a fault is about.
    fn detail(&mut self) -> Result<Identifier, ReadFault>
        ensures { Leads (λ i. i.value) (within element.Detail identifier_part) self.old self.new result }
    {
        self.expect(Tag::Open(Element::Detail))?;
        let identifier = self.identifier()?;
        self.expect(Tag::Close(Element::Detail))?;
        Ok(identifier)
    }
}
