// Reads frames, one a line, and prints for each what it says or where it is refused. A frame that was read is written
// again, and a mark is printed should its text be another.
//
// In a line a byte stands for itself, but `\xHH` is the byte of these two digits of 0-9A-F.
#![tactic(auto)]

mod answer;
mod line;
mod said;

use answer::Answer;
use line::unescaped;
use std::io::{BufRead, BufReader};

fn main(rt: HostRuntime) -> anyhow::Result<()> {
    let heap = rt.alloc();
    for text in BufReader::new(heap, rt.stdin())?.lines(heap) {
        let bytes = unescaped(heap, text?.as_bytes())?;
        let answer = Answer::to(bytes.as_slice());
        println!(rt; "{answer}")?;
    }
    Ok(())
}
