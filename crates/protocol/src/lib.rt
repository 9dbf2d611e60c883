// What is promised of every run of a line. The contracts of the calls of a line cite the same statements;
// the functions here only name them, so that the checker asks for their proofs.
#![tactic(auto)]

ghost use Rattle.protocol.specs.Promises.{RunsAreSafe};
ghost use Rattle.protocol.specs.Turns.{TwoTurnsSettle};

// Over every run from a fresh line: letters are delivered as written, each once and in order, only accepted
// numbers have receipts, and no call goes astray.
pub fn runs_are_safe()
    ensures { RunsAreSafe }
{}

// Two turns over transports that keep all leave every letter written delivered and receipted.
pub fn two_turns_settle()
    ensures { TwoTurnsSettle }
{}
