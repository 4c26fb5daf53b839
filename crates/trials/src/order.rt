// Each refusal by itself, and then each two neighbours in 01's order: both conditions hold, and the first is the answer. Order: 7 before
// everything else. 01: 12, 1, 2. 02: 11, 3. 03: 11, 4, 13, 15, 16, 17. 04: 11, 4, 14.
use crate::by_hand::with_held;
use crate::calls::{admit, admitted, open, opened, replace, retire};
use crate::held::equal_jobs;
use planner::Roster;
use std::io;

pub fn refusals(rt: &impl Print) -> io::Result<()> {
    let zero = Roster::empty();
    let roster = admitted(opened(1, 3, 2, 3), 10, 1, 4096);
    // 1: m 33; 2: Q is 3 + 2 × 127 = 257
    open(rt, zero, 33, 3, 2, 3)?;
    open(rt, zero, 1, 3, 3, 127)?;
    // 3: a shrinking rise; 4: no cost
    replace(rt, roster, &[0, 5, 9])?;
    admit(rt, roster, 20, 0, 4)?;
    // 7: a count of 2 where one job stands
    retire(rt, with_held(roster, 2), 10)?;
    // 11: no machine
    replace(rt, zero, &[0, 5, 10])?;
    admit(rt, zero, 10, 1, 4)?;
    retire(rt, zero, 10)?;
    // 12: one is open
    open(rt, roster, 1, 3, 2, 3)?;
    // 13: the id is there; 14: it is not there
    admit(rt, roster, 10, 1, 4096)?;
    retire(rt, roster, 20)?;
    // 15: 64 are held
    admit(rt, equal_jobs(roster, 64, 1, 4096), 5, 1, 4096)?;
    // 16: 4096 × 4097 is above the limit; 17: the whole processor, where 1/4096 of it is taken
    admit(rt, roster, 20, 1, 4097)?;
    admit(rt, roster, 20, 4096, 4096)?;
    Ok(())
}

// Calls 01, 02 and 04. A count of 1 where no job stands is a damage, with a machine and with none.
pub fn neighbours(rt: &impl Print) -> io::Result<()> {
    let zero = Roster::empty();
    let roster = opened(2, 3, 2, 3);
    print!(rt; "7 before 12: ")?;
    open(rt, with_held(roster, 1), 2, 3, 2, 3)?;
    print!(rt; "12 before 1: ")?;
    open(rt, roster, 0, 3, 2, 3)?;
    print!(rt; "12 before 2: ")?;
    open(rt, roster, 2, 0, 2, 3)?;
    print!(rt; "1 before 2: ")?;
    open(rt, zero, 0, 0, 2, 3)?;
    print!(rt; "7 before 11: ")?;
    replace(rt, with_held(zero, 1), &[0, 5, 10])?;
    print!(rt; "11 before 3: ")?;
    replace(rt, zero, &[0, 5, 9])?;
    print!(rt; "7 before 11: ")?;
    retire(rt, with_held(zero, 1), 10)?;
    print!(rt; "11 before 4: ")?;
    retire(rt, zero, 0)?;
    // 0 is on no roster
    print!(rt; "4 before 14: ")?;
    retire(rt, roster, 0)?;
    Ok(())
}

// Call 03.
pub fn admissions(rt: &impl Print) -> io::Result<()> {
    let zero = Roster::empty();
    let roster = admitted(opened(1, 3, 2, 3), 10, 1, 4096);
    print!(rt; "7 before 11: ")?;
    admit(rt, with_held(zero, 1), 20, 1, 4)?;
    print!(rt; "11 before 4: ")?;
    admit(rt, zero, 0, 1, 4)?;
    // the id is there, with a C and with a T that is out of range
    print!(rt; "4 before 13: ")?;
    admit(rt, roster, 10, 0, 4)?;
    print!(rt; "4 before 13: ")?;
    admit(rt, roster, 10, 1, 65_536)?;
    // C exceeds T, and 4096 × 4097 is above the limit
    print!(rt; "16 before 17: ")?;
    admit(rt, roster, 20, 4098, 4097)?;
    // 64 jobs of 1/4096
    let most = equal_jobs(roster, 64, 1, 4096);
    print!(rt; "13 before 15: ")?;
    admit(rt, most, 10, 1, 4096)?;
    // H would be too long, and C exceeds T
    print!(rt; "13 before 15, 16, 17: ")?;
    admit(rt, most, 640, 4098, 4097)?;
    print!(rt; "15 before 16: ")?;
    admit(rt, most, 5, 1, 4097)?;
    print!(rt; "15 before 17: ")?;
    admit(rt, most, 5, 2, 1)?;
    Ok(())
}
