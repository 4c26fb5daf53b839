// Makes calls on rosters, good and damaged, and prints what comes of each. A line has the call and the number of its answer: 0, or that of
// the refusal. Where the roster that comes back is not the one handed in, the line says `changed`.
// The file `stdout` has what must be printed. It is worked out from 01 and 02 by hand: the reason of each result stands at its trial.
#![tactic(auto)]

mod by_hand;
mod calls;
mod compare;
mod cycles;
mod damaged;
mod deadlines;
mod edges;
mod full;
mod held;
mod list;
mod order;
mod print;
mod tables;

use std::io;

fn main(rt: HostRuntime) -> io::Result<()> {
    compare::differences(&rt)?;
    cycles::cycles(&rt)?;
    cycles::limits(&rt)?;
    deadlines::ranges(&rt)?;
    deadlines::sooner(&rt)?;
    deadlines::cycles(&rt)?;
    deadlines::order(&rt)?;
    tables::default_tables(&rt)?;
    tables::rules(&rt)?;
    tables::lengths(&rt)?;
    tables::values(&rt)?;
    held::places(&rt)?;
    held::ids(&rt)?;
    edges::machines(&rt)?;
    edges::top_speeds(&rt)?;
    edges::wide_machines(&rt)?;
    edges::jobs(&rt)?;
    edges::retired(&rt)?;
    full::one_processor(&rt)?;
    full::more_processors(&rt)?;
    order::refusals(&rt)?;
    order::neighbours(&rt)?;
    order::admissions(&rt)?;
    by_hand::calls(&rt)?;
    damaged::good(&rt)?;
    damaged::machines(&rt)?;
    damaged::tables(&rt)?;
    damaged::counts(&rt)?;
    damaged::held_jobs(&rt)?;
    damaged::deadlines(&rt)?;
    damaged::closed(&rt)?;
    list::calls(&rt)
}
