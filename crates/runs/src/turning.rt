ghost use Rattle.line.specs.Meaning.{over, model};
ghost use Rattle.protocol.specs.Turns.{Until};
ghost use Rattle.runs.specs.Calls.{call_of};
ghost use Rattle.runs.specs.Turned.{Parts, Turned, TurnedTwice};

use crate::call::Call;
use crate::making::make;
use answer::{Answer, Phase, TurnReport};
use line::Line;
use taker::Taker;
use transport::Transport;

// How often a call is made at most in one part of a turn: over a transport of depth 0 frames may come for ever.
const MOST: u64 = 64;

// A turn: deliver and send, each until nothing comes; ask; then read, deliver and hear, each until nothing comes.
// A refusal ends only its own part.
pub fn turn<O: Transport, B: Transport, K: Taker>(
    line: &mut Line<O, B, K>,
    clock: u64,
) -> TurnReport
    ensures { Turned O.Transport B.Transport K.Taker clock result line.old line.new }
{
    parts_of_turn(line, clock)
}

// Two turns with one clock. Over transports that keep all they leave every letter written delivered and receipted,
// as the contract says in full.
pub fn two_turns<O: Transport, B: Transport, K: Taker>(
    line: &mut Line<O, B, K>,
    clock: u64,
) -> (TurnReport, TurnReport)
    ensures { TurnedTwice O.Transport B.Transport K.Taker clock result.0 result.1
        line.old line.new }
{
    let first = turn(line, clock);
    let second = turn(line, clock);
    (first, second)
}

// The six parts of a turn in their order.
fn parts_of_turn<O: Transport, B: Transport, K: Taker>(
    line: &mut Line<O, B, K>,
    clock: u64,
) -> TurnReport
    ensures { Parts O.Transport B.Transport K.Taker clock result line.old line.new }
{
    TurnReport {
        deliver: until_nothing(line, &Call::Deliver, MOST),
        send: until_nothing(line, &Call::Send(clock), MOST),
        ask: until_nothing(line, &Call::Ask, 1),
        read: until_nothing(line, &Call::Read, MOST),
        deliver_again: until_nothing(line, &Call::Deliver, MOST),
        hear: until_nothing(line, &Call::Hear, MOST),
    }
}

// Makes the call until nothing comes or it is refused, and so often at most.
fn until_nothing<O: Transport, B: Transport, K: Taker>(
    line: &mut Line<O, B, K>,
    call: &Call,
    at_most: u64,
) -> Phase
    ensures { Until (over O.Transport B.Transport K.Taker) (call_of call.now) at_most result
        (model O.Transport B.Transport K.Taker line.old)
        (model O.Transport B.Transport K.Taker line.new) }
{
    for count in 0..at_most {
        match make(line, call) {
            Answer::Nothing => return Phase {
                count,
                refused: None,
            },
            Answer::Refused(why) => {
                return Phase {
                    count,
                    refused: Some(why),
                };
            }
            Answer::Done | Answer::Number(_) | Answer::Form(_) => {}
        }
    }
    Phase {
        count: at_most,
        refused: None,
    }
}
