// The requests of paper 02 as the shift sees them: reports in plain words, each with its line of the log.
#![tactic(auto)]

mod cover;
mod early_end;
mod lines;

use std::io;

fn main(rt: HostRuntime) -> io::Result<()> {
    println!(rt; "After each colon the log's line: no unit answer warn part stamp\n")?;
    cover::cases(&rt)?;
    early_end::cases(&rt)
}
