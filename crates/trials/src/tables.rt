// Power tables: L whole numbers, 0 to 16,777,216, that never fall, each rise at least the rise before it.
use crate::calls::{open, opened, replace};
use crate::print::machine;
use planner::Roster;
use std::io;

// A new machine has the cubes of its speeds, b + j × d.
pub fn default_tables(rt: &impl Print) -> io::Result<()> {
    let zero = Roster::empty();
    // 8 125 512: speeds 2, 5 and 8
    machine(rt, &open(rt, zero, 1, 3, 2, 3)?)?;
    // 1 8 27 64: quarters
    machine(rt, &open(rt, zero, 32, 4, 1, 1)?)?;
    // 512 times the cubes of 1 to 32, as the speeds are 8 times these: 512 first, 256³ = 16777216 last
    machine(rt, &open(rt, zero, 1, 32, 8, 8)?)?;
    // 16777216: one level at 256; the step has no effect
    machine(rt, &open(rt, zero, 1, 1, 256, 255)?)?;
    // 1 16777216: speeds 1 and 256
    machine(rt, &open(rt, zero, 1, 2, 1, 255)?)
}

// Tables for three levels. After each the table in force is printed.
pub fn rules(rt: &impl Print) -> io::Result<()> {
    let mut roster = opened(1, 3, 2, 3);
    // 0: rises 30 and 52
    roster = replace(rt, roster, &[18, 48, 100])?;
    machine(rt, &roster)?;
    // 0: no rise at all
    roster = replace(rt, roster, &[5, 5, 5])?;
    machine(rt, &roster)?;
    // 3: rises 5 and 4; 5 5 5 stays whole
    roster = replace(rt, roster, &[0, 5, 9])?;
    machine(rt, &roster)?;
    // 0: rises 5 and 5
    roster = replace(rt, roster, &[0, 5, 10])?;
    machine(rt, &roster)?;
    // 3: rises 30 and 29, where only the last value is wrong; 0 5 10 stays whole
    roster = replace(rt, roster, &[18, 48, 77])?;
    machine(rt, &roster)?;
    // 3: a fall at the start, and then no rise; a fall at the end
    roster = replace(rt, roster, &[5, 4, 4])?;
    roster = replace(rt, roster, &[5, 5, 4])?;
    // 3: falls of 3 and then of 1
    roster = replace(rt, roster, &[8, 5, 4])?;
    machine(rt, &roster)?;
    // 0: all zeros
    roster = replace(rt, roster, &[0, 0, 0])?;
    machine(rt, &roster)?;
    // 0: the same table again; nothing changes
    roster = replace(rt, roster, &[0, 0, 0])?;
    Ok(())
}

// Not exactly L values.
pub fn lengths(rt: &impl Print) -> io::Result<()> {
    // 3 levels, 3: none, one, two, four, 33 values, and 259, which is 3 in eight bits
    let mut roster = opened(1, 3, 2, 3);
    roster = replace(rt, roster, &[])?;
    roster = replace(rt, roster, &[18])?;
    roster = replace(rt, roster, &[18, 48])?;
    roster = replace(rt, roster, &[18, 48, 100, 200])?;
    roster = replace(rt, roster, &[5; 33])?;
    roster = replace(rt, roster, &[5; 259])?;
    machine(rt, &roster)?;
    // 1 level, 3: none and two; 0: one
    roster = opened(1, 1, 2, 3);
    roster = replace(rt, roster, &[])?;
    roster = replace(rt, roster, &[7, 7])?;
    roster = replace(rt, roster, &[7])?;
    machine(rt, &roster)?;
    // 32 levels, 3: 31 and 33 values, and 4; 0: 32 values
    roster = opened(1, 32, 8, 8);
    roster = replace(rt, roster, &[5; 31])?;
    roster = replace(rt, roster, &[5; 33])?;
    roster = replace(rt, roster, &[5, 5, 5, 5])?;
    roster = replace(rt, roster, &[5; 32])?;
    machine(rt, &roster)
}

// A value is 0 to 16,777,216.
pub fn values(rt: &impl Print) -> io::Result<()> {
    let mut roster = opened(1, 3, 2, 3);
    // 0: the largest value, at the end, after equal rises, and in every place
    roster = replace(rt, roster, &[0, 0, 16_777_216])?;
    roster = replace(rt, roster, &[0, 8_388_608, 16_777_216])?;
    roster = replace(rt, roster, &[16_777_216, 16_777_216, 16_777_216])?;
    machine(rt, &roster)?;
    // 3: one more, at the end, and in every place
    roster = replace(rt, roster, &[0, 0, 16_777_217])?;
    roster = replace(rt, roster, &[16_777_217, 16_777_217, 16_777_217])?;
    // 3: the largest number of 32 bits; before 0 and 1 it is a fall, though each difference is 1 in 32 bits
    roster = replace(rt, roster, &[0, 0, 4_294_967_295])?;
    roster = replace(rt, roster, &[4_294_967_295, 0, 1])?;
    machine(rt, &roster)?;
    // one level; 0 and 3: the largest value and one more
    roster = opened(1, 1, 1, 1);
    roster = replace(rt, roster, &[16_777_216])?;
    roster = replace(rt, roster, &[16_777_217])?;
    machine(rt, &roster)
}
