// Runs the book over many letters; what it has to print comes from tools/book_vectors.
#![tactic(auto)]

fn main(rt: HostRuntime) -> anyhow::Result<()> {
    book_report::run(&rt)
}
