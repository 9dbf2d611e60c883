// What the text between two tags says.
ghost use Rattle.std.specs.Prelude.{◌≡◌};
ghost use Rattle.std.specs.List.{find};
ghost use Rattle.std.specs.Option.{option_map};
ghost use Rattle.std.specs.Str.{bytes_eq};
ghost use Rattle.pieces.specs.Names.{fault_name};
ghost use Rattle.pieces.specs.Values.{identifier_read, number_read, fault_code_read};

use crate::bytes::strip;
use crate::decimal::decimal;
use crate::names::FaultCode;
use frame::{Identifier, Number};

// The identifier whose text this is.
pub fn read_identifier(text: &[u8]) -> Option<Identifier>
    ensures { option_map (λ i. i.value) result ≡ identifier_read text.now }
{
    let digits = strip(text, b"urn:path:")?;
    Identifier::new(decimal(digits)?)
}

// The message number or credit whose text this is.
pub fn read_number(text: &[u8]) -> Option<Number>
    ensures { option_map (λ n. n.value) result ≡ number_read text.now }
{
    Number::new(decimal(text)?)
}

// The fault whose name this is.
pub fn read_fault_code(text: &[u8]) -> Option<FaultCode>
    ensures { result ≡ fault_code_read text.now }
{
    named(
        text,
        &[
            FaultCode::UnknownSequence,
            FaultCode::SequenceTerminated,
            FaultCode::SequenceClosed,
            FaultCode::CreateSequenceRefused,
        ],
    )
}

// The first of these whose name this is.
fn named(text: &[u8], codes: &[FaultCode]) -> Option<FaultCode>
    ensures { result ≡ find (λ code. bytes_eq text.now (fault_name code)) codes.now }
{
    codes.iter().find(|code| text == code.name()).copied()
}
