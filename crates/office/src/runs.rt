ghost use Rattle.std.specs.Prelude.{◌≡◌, ◌+◌, ◌<◌, ◌≤◌, true, ◌++◌};
ghost use Rattle.frame.specs.Ascending.{follows};
ghost use Rattle.frame.specs.Bounds.{M};
ghost use Rattle.frame.specs.Listed.{listed};
ghost use Rattle.office.specs.Places.{is_free};
ghost use Rattle.office.specs.Ranges.{run, range_of, ended, started};

use frame::{Range, Ranges};
use letter::Letter;

// Where the run of accepted numbers past this place starts: a missing letter ends the run.
pub(crate) fn start_past(place: &Option<Letter>, lower: u64, next: u64) -> u64
    requires { next ≤ M + 8 }
    ensures { result ≡ started place.now lower next }
{
    match place {
        None => next + 1,
        Some(_) => lower,
    }
}

// Names the numbers from `lower` to the one before `next`, if there are any.
pub(crate) fn name_run(ranges: &mut Ranges, lower: u64, next: u64)
    requires { lower < next → follows (listed ranges.old) (range_of lower next) ≡ true }
    ensures { listed ranges.new ≡ listed ranges.old ++ run lower next }
{
    if lower < next {
        ranges.push(Range {
            lower,
            upper: next - 1,
        });
    }
}

// Names the run that ends before this place, if its letter is missing.
pub(crate) fn name_ended(ranges: &mut Ranges, place: &Option<Letter>, lower: u64, next: u64)
    requires { is_free place.now ≡ true → lower < next
        → follows (listed ranges.old) (range_of lower next) ≡ true }
    ensures { listed ranges.new
        ≡ listed ranges.old ++ ended place.now lower next }
{
    match place {
        None => name_run(ranges, lower, next),
        Some(_) => {}
    }
}
