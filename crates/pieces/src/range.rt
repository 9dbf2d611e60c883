// The tag that names a range of message numbers.
ghost use Rattle.std.specs.Prelude.{◌≡◌};
ghost use Rattle.std.specs.Option.{option_map};
ghost use Rattle.pieces.specs.Attributes.{field_of, range_end, range_read};

use crate::bytes::{find, strip};
use crate::decimal::decimal;
use frame::Range;

// The number of an attribute, and what comes after it.
#[derive(Clone, Copy)]
struct Field<'a> {
    number: u64,
    rest: &'a [u8],
}

// The number that stands before the next quote.
#[tactic(auto, unfolding(crate::specs::Attributes::field_of))]
fn first_number(bytes: &[u8]) -> Option<Field<'_>>
    ensures { option_map (λ x. (x.number, x.rest.now)) result ≡ field_of bytes.now }
{
    let (digits, rest) = bytes.split_at(find(bytes, b'"'));
    let number = decimal(digits)?;
    Some(Field { number, rest })
}

// The range whose tag this is, whatever its numbers.
#[tactic(auto, unfolding(crate::specs::Attributes::range_read))]
pub fn read_range(part: &[u8]) -> Option<Range>
    ensures { result ≡ range_read part.now }
{
    let upper = first_number(strip(part, b"<wsrm:AcknowledgementRange Upper=\"")?)?;
    let lower = first_number(strip(upper.rest, b"\" Lower=\"")?)?;
    let end = strip(lower.rest, b"\"/>")?;
    ended(
        end,
        Range {
            lower: lower.number,
            upper: upper.number,
        },
    )
}

// The range, if nothing is left.
fn ended(end: &[u8], range: Range) -> Option<Range>
    ensures { result ≡ range_end range end.now }
{
    end.is_empty().then_some(range)
}
