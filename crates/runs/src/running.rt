ghost use Rattle.std.specs.Prelude.{◌≡◌, ◌+◌, ◌<◌, [], ◌∷◌, ◌++◌, is_ok, vec_len, vec_capacity};
ghost use Rattle.line.specs.Meaning.{Makes};
ghost use Rattle.runs.specs.Calls.{call_of};
ghost use Rattle.runs.specs.Recorded.{Ran};

use crate::call::Call;
use crate::making::make;
use answer::Answer;
use line::Line;
use std::alloc::AllocError;
use taker::Taker;
use transport::Transport;

// Makes these calls, one after another, and records the answer of each at the end of the list.
// The memory for that is taken first, so where there is none nothing is done.
pub fn run<O: Transport, B: Transport, K: Taker>(
    line: &mut Line<O, B, K>,
    calls: &[Call],
    answers: &mut Vec<Answer>,
) -> Result<(), AllocError>
    ensures { Ran O.Transport B.Transport K.Taker (is_ok result) calls.now
        answers.old.items answers.new.items
        line.old line.new }
{
    answers.reserve(calls.len())?;
    for call in calls {
        make_recorded(line, call, answers);
    }
    Ok(())
}

// Makes the call, and records and answers its answer.
fn make_recorded<O: Transport, B: Transport, K: Taker>(
    line: &mut Line<O, B, K>,
    call: &Call,
    answers: &mut Vec<Answer>,
) -> Answer
    requires { vec_len answers.old < vec_capacity answers.old }
    ensures step { Makes O.Transport B.Transport K.Taker (call_of call.now) result
        line.old line.new }
    ensures recorded { answers.new.items ≡ answers.old.items ++ (result ∷ []) }
    ensures length { vec_len answers.new ≡ vec_len answers.old + 1 }
    ensures room { vec_capacity answers.new ≡ vec_capacity answers.old }
{
    let answer = make(line, call);
    answers.push_reserved(answer);
    answer
}
