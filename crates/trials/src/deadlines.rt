// Deadlines before the period's end: D is 1 to T, else 4. Work is C × (H / D) and H the least common multiple of the deadlines.
use crate::calls::{admit, admit_due, admitted, opened, retire};
use crate::compare::compare;
use crate::held::equal_jobs;
use crate::print;
use planner::Roster;
use std::io;

// m 1 in quarters. In 16 or 32 bits the deadlines 65537 and 2³² + 1 would be 1.
pub fn ranges(rt: &impl Print) -> io::Result<()> {
    let roster = opened(1, 4, 1, 1);
    // 0: 1, one below T, T, and the longest
    admit_due(rt, roster, 1, 1, 8, 1)?;
    admit_due(rt, roster, 1, 1, 8, 7)?;
    admit_due(rt, roster, 1, 1, 8, 8)?;
    admit_due(rt, roster, 1, 65_535, 65_535, 65_535)?;
    // 4: 0, one above T twice, what would be 1 in fewer bits, and the largest
    admit_due(rt, roster, 1, 1, 8, 0)?;
    admit_due(rt, roster, 1, 1, 8, 9)?;
    admit_due(rt, roster, 1, 1, 65_535, 65_536)?;
    admit_due(rt, roster, 1, 1, 65_535, 65_537)?;
    admit_due(rt, roster, 1, 1, 65_535, 4_294_967_297)?;
    admit_due(rt, roster, 1, 1, 8, 18_446_744_073_709_551_615)?;
    // 4: the other numbers, whatever the deadline
    admit_due(rt, roster, 0, 1, 8, 4)?;
    admit_due(rt, roster, 1, 0, 8, 4)?;
    admit_due(rt, roster, 1, 1, 0, 0)?;
    admit_due(rt, roster, 1, 1, 65_536, 4)?;
    Ok(())
}

// What is due sooner weighs more.
pub fn sooner(rt: &impl Print) -> io::Result<()> {
    let machine = opened(1, 4, 1, 1);
    // 0, and the same roster as with the period alone; jobs 1: 1 2 4 4
    let roster = admit_due(rt, machine, 1, 2, 4, 4)?;
    compare(rt, roster, admitted(machine, 1, 2, 4))?;
    print::jobs(rt, &roster)?;
    // cycle 4 work 2, cycle 3 work 2, cycle 2 work 2: D is 4, 3 and 2
    print::cycle(rt, &roster)?;
    print::cycle(rt, &admit_due(rt, machine, 1, 2, 4, 3)?)?;
    print::cycle(rt, &admit_due(rt, machine, 1, 2, 4, 2)?)?;
    // 17, not 4: C exceeds D
    admit_due(rt, machine, 1, 2, 4, 1)?;
    // 0, 0: half of the time each, one by its deadline; 17: the least job beside them
    let full = admit(rt, admit_due(rt, machine, 2, 1, 4, 2)?, 5, 1, 2)?;
    admit_due(rt, full, 9, 1, 65_535, 65_535)?;
    // jobs 2: 2 1 4 2, 5 1 2 2; cycle 2 work 2
    print::jobs(rt, &full)?;
    print::cycle(rt, &full)?;
    // 0, 0: the id serves again with another deadline; jobs 2: 2 1 4 3, 5 1 2 2; cycle 6 work 5
    let again = admit_due(rt, retire(rt, full, 2)?, 2, 1, 4, 3)?;
    print::jobs(rt, &again)?;
    print::cycle(rt, &again)
}

// H goes by the deadlines, whatever the periods.
pub fn cycles(rt: &impl Print) -> io::Result<()> {
    let machine = opened(4, 4, 1, 1);
    // 0, 0, 0; cycle 23040 work 133: half of each of 1152, 1024 and 960, so half of 46080; works 40, 45 and 48
    let mut roster = admit_due(rt, machine, 1, 1, 1152, 576)?;
    roster = admit_due(rt, roster, 2, 1, 1024, 512)?;
    roster = admit_due(rt, roster, 3, 1, 960, 480)?;
    print::cycle(rt, &roster)?;
    // cycle 2880 work 11: 576 is 2⁶ × 9 and 480 is 2⁵ × 15, so H is 2⁶ × 45; works 5 and 6
    print::cycle(rt, &retire(rt, roster, 2)?)?;
    // 0, 0: periods 4096 and 4097; cycle 4096 work 3
    roster = admit_due(rt, admit(rt, machine, 1, 1, 4096)?, 2, 1, 4097, 2048)?;
    print::cycle(rt, &roster)?;
    // 16: deadlines 4096 and 4097, each in a period of 8192; 0: 4095 and 4097; cycle 16777215 work 8192
    admit_due(
        rt,
        admit_due(rt, machine, 1, 1, 8192, 4096)?,
        2,
        1,
        8192,
        4097,
    )?;
    roster = admit_due(
        rt,
        admit_due(rt, machine, 1, 1, 8192, 4095)?,
        2,
        1,
        8192,
        4097,
    )?;
    print::cycle(rt, &roster)?;
    // 16: 257 × 65281 is one above the limit
    admit_due(
        rt,
        admit_due(rt, machine, 1, 1, 65_535, 257)?,
        2,
        1,
        65_535,
        65_281,
    )?;
    Ok(())
}

// 11, 4, 13, 15, 16, 17: each two neighbours.
pub fn order(rt: &impl Print) -> io::Result<()> {
    let roster = admitted(opened(1, 3, 2, 3), 10, 1, 4096);
    print!(rt; "11 before 4: ")?;
    admit_due(rt, Roster::empty(), 10, 1, 8, 9)?;
    print!(rt; "4 before 13: ")?;
    admit_due(rt, roster, 10, 1, 8, 9)?;
    let most = equal_jobs(roster, 64, 1, 4096);
    print!(rt; "13 before 15: ")?;
    admit_due(rt, most, 10, 1, 8, 4)?;
    print!(rt; "15 before 16: ")?;
    admit_due(rt, most, 5, 1, 8192, 4097)?;
    print!(rt; "15 before 17: ")?;
    admit_due(rt, most, 5, 2, 8, 1)?;
    print!(rt; "16 before 17: ")?;
    admit_due(rt, roster, 20, 4098, 8192, 4097)?;
    print!(rt; "17: ")?;
    admit_due(rt, roster, 20, 4097, 8192, 4096)?;
    Ok(())
}
