ghost use Rattle.std.specs.Prelude.{◌≡◌, IfErr};
ghost use Rattle.line.specs.Answers.{posted};
ghost use Rattle.line.specs.Meaning.{Makes};
ghost use Rattle.protocol.specs.Calls.{posting};
ghost use Rattle.runs.specs.Calls.{call_of, path_in};
ghost use Rattle.runs.specs.Recorded.{Continues};

use crate::call::Call;
use crate::path::ValidPath;
use answer::{Answer, LineRefusal};
use line::Line;
use planner::Draft;
use taker::Taker;
use transport::Transport;

// The three types of a line stand on each function here, in `running` and in `turning`. A private trait or wrapper over
// a line would be named beside them, and not in their place, since the public contracts speak of `Line` itself.

// Makes the call. Whatever calls were made on this line before, from a fresh line on, all promises hold still.
pub fn make<O: Transport, B: Transport, K: Taker>(line: &mut Line<O, B, K>, call: &Call) -> Answer
    ensures step { Makes O.Transport B.Transport K.Taker (call_of call.now) result
        line.old line.new }
    ensures safe { Continues O.Transport B.Transport K.Taker (call_of call.now) result
        line.old line.new }
{
    make_call(line, call)
}

fn make_call<O: Transport, B: Transport, K: Taker>(line: &mut Line<O, B, K>, call: &Call) -> Answer
    ensures { Makes O.Transport B.Transport K.Taker (call_of call.now) result
        line.old line.new }
{
    match call {
        Call::Open => line.open().into(),
        Call::Write(bytes) => line.write(bytes).into(),
        Call::Post(path) => post_path(line, *path),
        Call::Send(clock) => line.send(*clock).into(),
        Call::Ask => line.ask().into(),
        Call::Hear => line.hear().into(),
        Call::Close => line.close().into(),
        Call::Finish => line.finish().into(),
        Call::Read => line.read().into(),
        Call::Deliver => line.deliver().into(),
    }
}

// Posts the draft, as `make` makes any other call; a refusal hands the same draft back.
pub fn post<O: Transport, B: Transport, K: Taker>(
    line: &mut Line<O, B, K>,
    draft: Draft,
) -> Result<u64, (LineRefusal, Draft)>
    ensures step { Makes O.Transport B.Transport K.Taker (posting draft.path) (posted result)
        line.old line.new }
    ensures back { IfErr result (λ e. e.1 ≡ draft) }
    ensures safe { Continues O.Transport B.Transport K.Taker (posting draft.path) (posted result)
        line.old line.new }
{
    line.post(draft)
}

// Drafts the path and posts it; where that is refused, the draft is torn up.
fn post_path<O: Transport, B: Transport, K: Taker>(
    line: &mut Line<O, B, K>,
    path: ValidPath,
) -> Answer
    ensures { Makes O.Transport B.Transport K.Taker (posting (path_in path)) result
        line.old line.new }
{
    match line.post(path.draft()) {
        Ok(number) => Answer::Number(number),
        Err((why, draft)) => {
            draft.tear();
            Answer::Refused(why)
        }
    }
}
