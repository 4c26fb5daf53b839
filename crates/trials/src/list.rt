// One longer list of calls from the roster of all zeros, refused ones among them.
use crate::calls::{admit, open, replace, retire};
use crate::print;
use planner::Roster;
use std::io;

// The first calls: a machine, and jobs until it is full.
fn filled(rt: &impl Print) -> io::Result<Roster> {
    // 11: no machine yet
    let mut roster = retire(rt, Roster::empty(), 1)?;
    // 2: Q is 100 + 2 × 79 = 258; 0: 100 + 2 × 78 = 256; 12: one is open
    roster = open(rt, roster, 2, 3, 100, 79)?;
    roster = open(rt, roster, 2, 3, 100, 78)?;
    roster = open(rt, roster, 2, 3, 100, 78)?;
    // 0: H 12, work 3; 0: H 24, works 6 and 15
    roster = admit(rt, roster, 7, 3, 12)?;
    roster = admit(rt, roster, 3, 5, 8)?;
    // 13: id 7 is there
    roster = admit(rt, roster, 7, 1, 1)?;
    // 0: rises 10 and 20; 3: rises 10 and 9
    roster = replace(rt, roster, &[10, 20, 40])?;
    roster = replace(rt, roster, &[10, 20, 29])?;
    // 0: 24 more makes 45 of 48; 17: 4 more would make 49; 0: 3 more makes 48
    roster = admit(rt, roster, 5, 24, 24)?;
    roster = admit(rt, roster, 9, 1, 6)?;
    roster = admit(rt, roster, 9, 1, 8)?;
    // 17: the least job; H would be 8 × 65535, within its limit
    admit(rt, roster, 1, 1, 65_535)
}

// The calls after these.
pub fn calls(rt: &impl Print) -> io::Result<()> {
    let mut roster = filled(rt)?;
    // 14: no id 4; 0: id 5 goes out, and 6, 15 and 3 of 48 are left
    roster = retire(rt, roster, 4)?;
    roster = retire(rt, roster, 5)?;
    // 4: T 65536
    roster = admit(rt, roster, 2, 1, 65_536)?;
    // 0: 65521 is prime, so H is 24 × 65521 = 1,572,504; works 24 × 65521 and 24, 1572528 together
    roster = admit(rt, roster, 2, 1, 65_521)?;
    print::cycle(rt, &roster)?;
    // 16: 65519 and 65521 are odd and 2 apart, so H would be at least their product
    roster = admit(rt, roster, 4, 1, 65_519)?;
    // 0: without the period of 12, H is 8 × 65521
    roster = retire(rt, roster, 7)?;
    // 0: no rise
    roster = replace(rt, roster, &[5, 5, 5])?;
    // 0: id 7 serves again, now with 1/2
    roster = admit(rt, roster, 7, 1, 2)?;
    // 4: 65537 is no id, though it is 1 in 16 bits
    roster = retire(rt, roster, 65_537)?;
    // machine 2 3 100 78 with 5 5 5; jobs 2 1 65521 65521, 3 5 8 8, 7 1 2 2, 9 1 8 8
    print::machine(rt, &roster)?;
    print::jobs(rt, &roster)?;
    // cycle 524168 work 655218: 8, 5 × 65521, 4 × 65521 and 65521
    print::cycle(rt, &roster)
}
