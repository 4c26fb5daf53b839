// What the trials print.
use gmf::{Job, Machine};
use place_checks::unused;
use planner::{Condition, Roster};
use power_tables::all_zero;
use std::{fmt, io};

// A lent list of numbers with a blank before each, or only how many they are.
#[derive(Clone, Copy)]
pub struct Values<'a>(pub &'a [u32]);

impl<'a> fmt::Display for Values<'a> {
    fn fmt<W: fmt::Write>(&self, f: &mut fmt::Formatter<W>) -> fmt::Result {
        let lent = self.0;
        let count = lent.len();
        if 4 < count {
            return write!(f, " of {count}");
        }
        for value in lent {
            write!(f, " {value}")?;
        }
        Ok(())
    }
}

// Whether zeros follow, or something else.
fn rest(rt: &impl Print, zeros: bool) -> io::Result<()> {
    let what = if zeros { "zeros" } else { "more" };
    println!(rt; " then {what}")
}

// The machine and its table: the entries in force, and what is after them.
pub fn machine(rt: &impl Print, roster: &Roster) -> io::Result<()> {
    let Machine {
        processors,
        levels,
        lowest,
        step,
    } = roster.machine;
    print!(rt; "machine {processors} {levels} {lowest} {step}:")?;
    let table = roster.table;
    let used = usize::from(levels).min(32);
    for value in &table[..used] {
        print!(rt; " {value}")?;
    }
    rest(rt, all_zero(&table[used..]))
}

// Each job as id, C, T and D.
fn first_jobs(rt: &impl Print, jobs: &[Job]) -> io::Result<()> {
    for job in jobs {
        let Job {
            id,
            cost,
            period,
            deadline,
        } = *job;
        print!(rt; " {id} {cost} {period} {deadline};")?;
    }
    Ok(())
}

// Is no place from `held` on in use?
fn unused_from(roster: &Roster, held: usize) -> bool {
    roster.jobs.get(held..).is_none_or(unused)
}

// The jobs held, and what is after them.
pub fn jobs(rt: &impl Print, roster: &Roster) -> io::Result<()> {
    let held = usize::from(roster.held).min(64);
    print!(rt; "jobs {held}:")?;
    first_jobs(rt, &roster.jobs[..held])?;
    rest(rt, unused_from(roster, held))
}

// The cycle of the jobs held and the sum of their works.
pub fn cycle(rt: &impl Print, roster: &Roster) -> io::Result<()> {
    match roster.inspect() {
        Condition::Damaged => println!(rt; "damaged"),
        Condition::Closed => println!(rt; "no machine"),
        Condition::Open(totals) => {
            let cycle = totals.hyperperiod;
            let work = totals.work;
            println!(rt; "cycle {cycle} work {work}")
        }
    }
}
