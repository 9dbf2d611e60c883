// Runs scripts of calls on a planner's end and an office's end, one call a line, and prints what each answered
// and what the two ends keep after it; of a line that begins with a point nothing is printed. What it has to print comes from tools/end_vectors.
#![tactic(auto)]

mod calls;
mod shows;
mod words;

use calls::Ends;
use std::io::{BufRead, BufReader};

fn main(rt: HostRuntime) -> anyhow::Result<()> {
    let heap = rt.alloc();
    let Some(mut ends) = Ends::new(7, 60, 1000, true) else {
        return Ok(());
    };
    for line in BufReader::new(heap, rt.stdin())?.split(heap, b'\n') {
        let line = line?;
        if let [b'.', call @ ..] = line.as_slice() {
            let _ = ends.call(heap, call)?;
            continue;
        }
        let answer = ends.call(heap, line.as_slice())?;
        let kept = ends.kept(heap)?;
        println!(rt; "{answer} | {kept}")?;
    }
    Ok(())
}
