// The names that stand in the text of frames. Two tables, and no trait over them: they share a signature and no line.
ghost use Rattle.std.specs.Prelude.{◌≡◌};
ghost use Rattle.pieces.specs.Names.{element_name, fault_name};

// The elements, but for AcknowledgementRange, which has attributes.
#[derive(Clone, Copy)]
pub enum Element {
    CreateSequence,
    CreateSequenceResponse,
    Identifier,
    Sequence,
    MessageNumber,
    Letter,
    AckRequested,
    SequenceAcknowledgement,
    Nothing,
    Final,
    Credit,
    CloseSequence,
    LastMsgNumber,
    CloseSequenceResponse,
    TerminateSequence,
    TerminateSequenceResponse,
    SequenceFault,
    FaultCode,
    Detail,
}

impl Element {
    pub fn name(self) -> &'static [u8]
        ensures { result.now ≡ element_name self }
    {
        match self {
            Element::CreateSequence => b"wsrm:CreateSequence",
            Element::CreateSequenceResponse => b"wsrm:CreateSequenceResponse",
            Element::Identifier => b"wsrm:Identifier",
            Element::Sequence => b"wsrm:Sequence",
            Element::MessageNumber => b"wsrm:MessageNumber",
            Element::Letter => b"tp:Letter",
            Element::AckRequested => b"wsrm:AckRequested",
            Element::SequenceAcknowledgement => b"wsrm:SequenceAcknowledgement",
            Element::Nothing => b"wsrm:None",
            Element::Final => b"wsrm:Final",
            Element::Credit => b"tp:Credit",
            Element::CloseSequence => b"wsrm:CloseSequence",
            Element::LastMsgNumber => b"wsrm:LastMsgNumber",
            Element::CloseSequenceResponse => b"wsrm:CloseSequenceResponse",
            Element::TerminateSequence => b"wsrm:TerminateSequence",
            Element::TerminateSequenceResponse => b"wsrm:TerminateSequenceResponse",
            Element::SequenceFault => b"wsrm:SequenceFault",
            Element::FaultCode => b"wsrm:FaultCode",
            Element::Detail => b"wsrm:Detail",
        }
    }
}

// What a SequenceFault may complain of.
#[derive(Clone, Copy, PartialEq, Eq, Debug)]
pub enum FaultCode {
    UnknownSequence,
    SequenceTerminated,
    SequenceClosed,
    CreateSequenceRefused,
}

impl FaultCode {
    pub fn name(self) -> &'static [u8]
        ensures { result.now ≡ fault_name self }
    {
        match self {
            FaultCode::UnknownSequence => b"wsrm:UnknownSequence",
            FaultCode::SequenceTerminated => b"wsrm:SequenceTerminated",
            FaultCode::SequenceClosed => b"wsrm:SequenceClosed",
            FaultCode::CreateSequenceRefused => b"wsrm:CreateSequenceRefused",
        }
    }
}
