// Small worked cases of the definitions that the contracts of both ends, of the frames and of the letters cite.
// The function here only names them, so that the checker asks for their proofs.
#![tactic(auto)]

ghost use Rattle.cases.specs.SmallCases.{SmallCases};

// Nine cases with small numbers: receipts, a letter's size, the window, the gap, the limit and a path's times.
pub fn small_cases()
    ensures { SmallCases }
{}
