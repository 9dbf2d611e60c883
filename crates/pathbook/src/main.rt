// Keeps a book of train paths from the letters on standard input.
#![tactic(auto)]

fn main(rt: HostRuntime) -> anyhow::Result<()> {
    book_report::run(&rt)
}
