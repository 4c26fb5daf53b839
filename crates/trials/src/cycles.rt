// The cycle H is the least common multiple of the deadlines on the roster, 1 if it is empty. The work of a job is C × (H / D). Here D is T.
use crate::calls::{admit, opened, retire};
use crate::print::cycle;
use std::io;

pub fn cycles(rt: &impl Print) -> io::Result<()> {
    let mut roster = opened(4, 4, 1, 1);
    // cycle 1 work 0: no jobs
    cycle(rt, &roster)?;
    // cycle 1152 work 1: one job, once in its period
    roster = admit(rt, roster, 1, 1, 1152)?;
    cycle(rt, &roster)?;
    // cycle 9216 work 17: 1152 is 2⁷ × 9 and 1024 is 2¹⁰, so H is 2¹⁰ × 9; works 8 and 9
    roster = admit(rt, roster, 2, 1, 1024)?;
    cycle(rt, &roster)?;
    // cycle 46080 work 133: 960 is 2⁶ × 3 × 5, so H is 2¹⁰ × 9 × 5; works 40, 45 and 48
    roster = admit(rt, roster, 3, 1, 960)?;
    cycle(rt, &roster)?;
    // cycle 15360 work 31: the old H is not kept after a retirement; of 1024 and 960 it is 2¹⁰ × 3 × 5; works 15 and 16
    roster = retire(rt, roster, 1)?;
    cycle(rt, &roster)?;
    // 0, 0: another roster; H is 255 × 256 = 65280
    roster = admit(rt, admit(rt, opened(4, 4, 1, 1), 1, 1, 255)?, 2, 1, 256)?;
    // cycle 16776960 work 196607: 255 × 256 × 257, no two with a common divisor; works 65792, 65535 and 65280
    roster = admit(rt, roster, 3, 1, 257)?;
    cycle(rt, &roster)?;
    // 16: 512 has one 2 more than H, so H would be twice as long
    roster = admit(rt, roster, 4, 1, 512)?;
    // cycle 16776960 work 229503: 510 is 2 × 255 and divides H, 32896 times
    roster = admit(rt, roster, 4, 1, 510)?;
    cycle(rt, &roster)
}

// H is at most 16,777,216.
pub fn limits(rt: &impl Print) -> io::Result<()> {
    let machine = opened(4, 4, 1, 1);
    // cycle 16773120 work 8191: 4095 × 4096, which have no common divisor; works 4096 and 4095
    let mut roster = admit(rt, admit(rt, machine, 1, 1, 4095)?, 2, 1, 4096)?;
    cycle(rt, &roster)?;
    // cycle 4096 work 1: the shorter one again once 4095 is retired
    cycle(rt, &retire(rt, roster, 1)?)?;
    // cycle 4095 work 1: or once 4096 is
    roster = retire(rt, roster, 2)?;
    cycle(rt, &roster)?;
    // cycle 16777215 work 8192: 4095 × 4097 is 4096² - 1, and both are odd, 2 apart; one below the limit
    cycle(rt, &admit(rt, roster, 2, 1, 4097)?)?;
    // 16: 4096 × 4097 is 16,781,312; cycle 4096 work 1: the roster stays
    roster = admit(rt, machine, 1, 1, 4096)?;
    cycle(rt, &admit(rt, roster, 2, 1, 4097)?)?;
    // 16, in either order: 257 × 65281 is 16,777,217, one above the limit; 257 is prime, and 65281 is 254 × 257 + 3; cycles 257 and 65281,
    // work 1, stay
    roster = admit(rt, machine, 1, 1, 257)?;
    cycle(rt, &admit(rt, roster, 2, 1, 65_281)?)?;
    roster = admit(rt, machine, 1, 1, 65_281)?;
    cycle(rt, &admit(rt, roster, 2, 1, 257)?)
}
