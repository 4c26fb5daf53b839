// Rosters whose fields are set by hand. Each function sets another part: what they share is one line, the struct update.
use crate::calls;
use crate::compare::compare;
use gmf::{Job, Machine};
use planner::Roster;
use std::io;

pub fn with_machine(roster: Roster, processors: u8, levels: u8, lowest: u16, step: u8) -> Roster {
    let machine = Machine {
        processors,
        levels,
        lowest,
        step,
    };
    Roster { machine, ..roster }
}

pub fn with_entry(roster: Roster, level: usize, value: u32) -> Roster {
    let mut table = roster.table;
    if let Some(entry) = table.get_mut(level) {
        *entry = value;
    }
    Roster { table, ..roster }
}

pub fn with_held(roster: Roster, held: u8) -> Roster {
    Roster { held, ..roster }
}

// A job with its period for its deadline.
pub fn with_job(roster: Roster, place: usize, id: u16, cost: u16, period: u16) -> Roster {
    let mut jobs = roster.jobs;
    if let Some(job) = jobs.get_mut(place) {
        *job = Job {
            id,
            cost,
            period,
            deadline: period,
        };
    }
    Roster { jobs, ..roster }
}

// The deadline of the job in a place.
pub fn with_deadline(roster: Roster, place: usize, deadline: u16) -> Roster {
    let mut jobs = roster.jobs;
    if let Some(job) = jobs.get_mut(place) {
        job.deadline = deadline;
    }
    Roster { jobs, ..roster }
}

// An accepted call changes what it names and nothing else: each roster that comes back is the one set by hand, in every field.
pub fn calls(rt: &impl Print) -> io::Result<()> {
    // a machine has its four numbers and the cubes of its speeds 2, 5 and 8; all else is zero as it was
    let mut mine = with_machine(Roster::empty(), 2, 3, 2, 3);
    mine = with_entry(mine, 0, 8);
    mine = with_entry(mine, 1, 125);
    mine = with_entry(mine, 2, 512);
    let mut roster = calls::open(rt, Roster::empty(), 2, 3, 2, 3)?;
    compare(rt, roster, mine)?;
    // a job goes in at the first place
    mine = with_job(with_held(mine, 1), 0, 20, 1, 2);
    roster = calls::admit(rt, roster, 20, 1, 2)?;
    compare(rt, roster, mine)?;
    // a lower id goes before it
    mine = with_job(with_held(mine, 2), 0, 10, 1, 4);
    mine = with_job(mine, 1, 20, 1, 2);
    roster = calls::admit(rt, roster, 10, 1, 4)?;
    compare(rt, roster, mine)?;
    // a job with a deadline of its own goes in between; H is still 4
    mine = with_deadline(with_job(with_held(mine, 3), 1, 15, 1, 8), 1, 4);
    mine = with_job(mine, 2, 20, 1, 2);
    roster = calls::admit_due(rt, roster, 15, 1, 8, 4)?;
    compare(rt, roster, mine)?;
    // and out again: the places are as before
    mine = with_job(with_held(mine, 2), 1, 20, 1, 2);
    mine = with_job(mine, 2, 0, 0, 0);
    roster = calls::retire(rt, roster, 15)?;
    compare(rt, roster, mine)?;
    // the three values are the table; machine and jobs stay
    mine = with_entry(mine, 0, 18);
    mine = with_entry(mine, 1, 48);
    mine = with_entry(mine, 2, 100);
    roster = calls::replace(rt, roster, &[18, 48, 100])?;
    compare(rt, roster, mine)?;
    // the job of id 10 goes out, the other moves down, and the place left is zero
    mine = with_job(with_held(mine, 1), 0, 20, 1, 2);
    mine = with_job(mine, 1, 0, 0, 0);
    roster = calls::retire(rt, roster, 10)?;
    compare(rt, roster, mine)
}
