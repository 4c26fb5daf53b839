// A roster holds at most 64 jobs. They stand by rising id, and unused places hold zeros.
use crate::calls::{admit, admitted, opened, retire};
use crate::print;
use planner::Roster;
use std::io;

// With jobs of the same cost and period that have the ids 10, 20 and so on.
pub fn equal_jobs(machine: Roster, count: u8, cost: u64, period: u64) -> Roster {
    let mut roster = machine;
    for k in 1..=count {
        roster = admitted(roster, 10 * u64::from(k), cost, period);
    }
    roster
}

// m 1, jobs of 1/64.
pub fn places(rt: &impl Print) -> io::Result<()> {
    let mut roster = equal_jobs(opened(1, 4, 1, 1), 63, 1, 64);
    // 0: the 64th; ids 10 to 640; cycle 64 work 64
    roster = admit(rt, roster, 640, 1, 64)?;
    print::jobs(rt, &roster)?;
    print::cycle(rt, &roster)?;
    // 15: a 65th, whether its id is the first, one between or the last
    roster = admit(rt, roster, 5, 1, 64)?;
    roster = admit(rt, roster, 335, 1, 64)?;
    roster = admit(rt, roster, 650, 1, 64)?;
    // 0 and 0: after one retires, accepted; 5 stands first, and 320 is gone
    roster = admit(rt, retire(rt, roster, 320)?, 5, 1, 64)?;
    print::jobs(rt, &roster)?;
    // 0 and 0: in the middle; 335 stands between 330 and 340, and 5 is gone
    roster = admit(rt, retire(rt, roster, 5)?, 335, 1, 64)?;
    print::jobs(rt, &roster)?;
    // 0 and 0: 650 stands last, and 640 is gone
    roster = admit(rt, retire(rt, roster, 640)?, 650, 1, 64)?;
    print::jobs(rt, &roster)?;
    // 15: full again
    roster = admit(rt, roster, 640, 1, 64)?;
    // 0 and 0: the id of a job that was retired serves again; cycle 64 work 64
    roster = admit(rt, retire(rt, roster, 650)?, 640, 1, 64)?;
    print::cycle(rt, &roster)
}

pub fn ids(rt: &impl Print) -> io::Result<()> {
    let mut roster = opened(4, 4, 1, 1);
    // jobs 0, and all places zero
    print::jobs(rt, &roster)?;
    // 0 each; by rising id, each with its period for its deadline: 1 5 10 10, 100 2 10 10, 200 3 20 20, 300 1 10 10, 65535 4 10 10
    roster = admit(rt, roster, 300, 1, 10)?;
    roster = admit(rt, roster, 100, 2, 10)?;
    roster = admit(rt, roster, 200, 3, 20)?;
    roster = admit(rt, roster, 65_535, 4, 10)?;
    roster = admit(rt, roster, 1, 5, 10)?;
    print::jobs(rt, &roster)?;
    // the first goes out: 100 2 10 10, 200 3 20 20, 300 1 10 10, 65535 4 10 10
    roster = retire(rt, roster, 1)?;
    print::jobs(rt, &roster)?;
    // one between: 100 2 10 10, 300 1 10 10, 65535 4 10 10
    roster = retire(rt, roster, 200)?;
    print::jobs(rt, &roster)?;
    // the last: 100 2 10 10, 300 1 10 10
    roster = retire(rt, roster, 65_535)?;
    print::jobs(rt, &roster)?;
    // 14: each is gone
    roster = retire(rt, roster, 1)?;
    roster = retire(rt, roster, 200)?;
    roster = retire(rt, roster, 65_535)?;
    // 0: its id serves again, now with 6/20
    roster = admit(rt, roster, 200, 6, 20)?;
    print::jobs(rt, &roster)?;
    // 0 each: no job is left
    roster = retire(rt, retire(rt, retire(rt, roster, 100)?, 300)?, 200)?;
    print::jobs(rt, &roster)
}
