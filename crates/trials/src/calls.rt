// The calls. Each prints its arguments and its answer, and gives back the roster that came back.
use crate::print::Values;
use planner::{Reply, Roster};
use refusals::number_of;
use std::io;

// The answer's number, and whether the roster changed.
pub fn told(rt: &impl Print, before: Roster, reply: Reply) -> io::Result<Roster> {
    let number = number_of(&reply.answer);
    let after = reply.roster;
    let changed = if after == before { "" } else { " changed" };
    print!(rt; " {number}{changed}")?;
    Ok(after)
}

// The same, to the end of the line.
fn answered(rt: &impl Print, before: Roster, reply: Reply) -> io::Result<Roster> {
    let after = told(rt, before, reply)?;
    println!(rt)?;
    Ok(after)
}

pub fn open(
    rt: &impl Print,
    roster: Roster,
    processors: u64,
    levels: u64,
    lowest: u64,
    step: u64,
) -> io::Result<Roster> {
    print!(rt; "open {processors} {levels} {lowest} {step}:")?;
    answered(
        rt,
        roster,
        roster.open_machine(processors, levels, lowest, step),
    )
}

pub fn replace(rt: &impl Print, roster: Roster, values: &[u32]) -> io::Result<Roster> {
    print!(rt; "replace{}:", Values(values))?;
    answered(rt, roster, roster.replace_table(values))
}

// With its period for its deadline.
pub fn admit(
    rt: &impl Print,
    roster: Roster,
    id: u64,
    cost: u64,
    period: u64,
) -> io::Result<Roster> {
    print!(rt; "admit {id} {cost} {period}:")?;
    answered(rt, roster, roster.admit(id, cost, period, period))
}

pub fn admit_due(
    rt: &impl Print,
    roster: Roster,
    id: u64,
    cost: u64,
    period: u64,
    deadline: u64,
) -> io::Result<Roster> {
    print!(rt; "admit {id} {cost} {period} due {deadline}:")?;
    answered(rt, roster, roster.admit(id, cost, period, deadline))
}

pub fn retire(rt: &impl Print, roster: Roster, id: u64) -> io::Result<Roster> {
    print!(rt; "retire {id}:")?;
    answered(rt, roster, roster.retire(id))
}

// A new machine, and nothing printed.
pub fn opened(processors: u64, levels: u64, lowest: u64, step: u64) -> Roster {
    Roster::empty()
        .open_machine(processors, levels, lowest, step)
        .roster
}

// A job more, with its period for its deadline, and nothing printed.
pub fn admitted(roster: Roster, id: u64, cost: u64, period: u64) -> Roster {
    roster.admit(id, cost, period, period).roster
}
