// Some plan passes exactly when it does with every processor at the top: then no C exceeds its T, and all works are at most m × H.
use crate::calls::{admit, opened, retire};
use crate::held::equal_jobs;
use crate::print::cycle;
use std::io;

pub fn one_processor(rt: &impl Print) -> io::Result<()> {
    let machine = opened(1, 4, 1, 1);
    // 0, 0, 17: two jobs 1/2 fill the processor, and a third has no room; cycle 2 work 2
    let mut roster = admit(rt, admit(rt, machine, 1, 1, 2)?, 2, 1, 2)?;
    roster = admit(rt, roster, 3, 1, 2)?;
    cycle(rt, &roster)?;
    // 0, 0: after one retires there is room
    roster = admit(rt, retire(rt, roster, 1)?, 3, 1, 2)?;
    // 17: 11/10
    roster = admit(rt, machine, 1, 11, 10)?;
    // 0: 10/10 fills it
    roster = admit(rt, machine, 1, 10, 10)?;
    // 17: the least job; H would be 131070, works 131070 and 2; cycle 10 work 10 stays
    roster = admit(rt, roster, 2, 1, 65_535)?;
    cycle(rt, &roster)?;
    // 0, 17: 3/5 and 1/2 are 6 + 5 ticks in 10
    roster = admit(rt, admit(rt, machine, 1, 3, 5)?, 2, 1, 2)?;
    // 0: 3/5 and 2/5 are full; cycle 5 work 5
    roster = admit(rt, roster, 2, 2, 5)?;
    cycle(rt, &roster)
}

pub fn more_processors(rt: &impl Print) -> io::Result<()> {
    // m 2; 0: 3/4, 3/4 and 2/4 are 8 ticks in 2 × 4; 17: 1/4 more; cycle 4 work 8
    let mut roster = admit(rt, admit(rt, opened(2, 4, 1, 1), 1, 3, 4)?, 2, 3, 4)?;
    roster = admit(rt, roster, 3, 2, 4)?;
    roster = admit(rt, roster, 4, 1, 4)?;
    cycle(rt, &roster)?;
    // m 32; 17: C exceeds T, and such a job fits no plan, whatever room there is
    roster = opened(32, 4, 1, 1);
    roster = admit(rt, roster, 1, 11, 10)?;
    roster = admit(rt, roster, 1, 2, 1)?;
    roster = admit(rt, roster, 1, 65_535, 1)?;
    roster = admit(rt, roster, 1, 65_535, 65_534)?;
    // 0, 0: C is T; cycle 65534 work 131068, a whole processor each
    roster = admit(rt, roster, 1, 65_534, 65_534)?;
    roster = admit(rt, roster, 2, 1, 1)?;
    cycle(rt, &roster)?;
    // m 32 and jobs of 10/10, which fill a processor each; 0: the 32nd; cycle 10 work 320
    roster = equal_jobs(opened(32, 4, 1, 1), 31, 10, 10);
    roster = admit(rt, roster, 320, 10, 10)?;
    cycle(rt, &roster)?;
    // 17: a 33rd, and the least job
    roster = admit(rt, roster, 330, 10, 10)?;
    roster = admit(rt, roster, 330, 1, 65_535)?;
    // 0, 0: room for as much as was retired; cycle 10 work 320
    roster = admit(rt, retire(rt, roster, 10)?, 330, 10, 10)?;
    cycle(rt, &roster)
}
