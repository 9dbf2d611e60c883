ghost use Rattle.std.specs.Prelude.{◌≡◌, ◌≤◌, length, nat_lt};
ghost use Rattle.planner.specs.Receipts.{covers, first_above, with_receipts, in_front, slid};
ghost use Rattle.planner.specs.Windows.{window_of};

use crate::slot::{Slot, WINDOW};
use frame::Range;

// Whether one of the ranges names n.
fn has_number(ranges: &[Range], n: u64) -> bool
    ensures { result ≡ covers ranges.now n }
{
    ranges
        .iter()
        .any(|range| range.lower <= n && n <= range.upper)
}

// Apart from `upper_above`, so that its own contract judges it.
fn is_above(range: Range, n: u64) -> bool
    ensures { result ≡ nat_lt n range.upper }
{
    range.upper > n
}

// The first Upper above n.
pub(super) fn upper_above(ranges: &[Range], n: u64) -> Option<u64>
    ensures { result ≡ first_above ranges.now n }
{
    ranges
        .iter()
        .find(|range| is_above(**range, n))
        .map(|range| range.upper)
}

// Marks the numbers of the window that the ranges name.
pub(super) fn mark_all(slots: &mut [Slot; WINDOW], lowest: u64, ranges: &[Range])
    requires { lowest ≤ 9223372036854775808 }
    ensures { window_of slots.new ≡
        with_receipts ranges.now lowest (window_of slots.old) }
{
    for (k, slot) in slots.iter_mut().enumerate() {
        *slot = slot.marked(has_number(ranges, lowest + k as u64));
    }
}

// How many numbers in front have receipts.
pub(super) fn front_of(slots: &[Slot; WINDOW]) -> usize
    ensures value { result ≡ in_front (window_of slots.now) }
    ensures few { result ≤ 8 }
{
    slots.iter().take_while(|slot| slot.has_receipt()).count()
}

// Moves the window on by so many numbers.
pub(super) fn slide(slots: &mut [Slot; WINDOW], by: usize)
    requires { by ≤ 8 }
    ensures value { window_of slots.new ≡ slid by (window_of slots.old) }
    ensures whole { length slots.new ≡ 8 }
{
    slots[..by].fill(Slot::Free);
    slots.rotate_left(by);
}
