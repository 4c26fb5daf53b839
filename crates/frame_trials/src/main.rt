// Reads good and damaged lines of every kind, takes sheets apart, writes frames at the edges of pages, and prints what comes of each.
// The file `stdout` has what must be printed. It is worked out from 01 by hand: the reason of each result stands at its trial.
#![tactic(auto)]

mod lines;
mod pages;
mod print;
mod sheets;

use std::io;

fn main(rt: HostRuntime) -> io::Result<()> {
    lines::good(&rt)?;
    lines::damaged(&rt)?;
    lines::lengths(&rt)?;
    lines::digits(&rt)?;
    sheets::taken_apart(&rt)?;
    pages::refusals(&rt)?;
    pages::plans(&rt)?;
    pages::slacks(&rt)
}
