// Whether two rosters are the same: every field, all 32 entries and all 64 places.
use crate::by_hand::{with_deadline, with_entry, with_held, with_job, with_machine};
use planner::Roster;
use std::io;

pub fn compare(rt: &impl Print, a: Roster, b: Roster) -> io::Result<()> {
    let what = if a == b { "same" } else { "other" };
    println!(rt; "compared: {what}")
}

// The comparison itself: a roster is the same as itself, and another where any one field is.
pub fn differences(rt: &impl Print) -> io::Result<()> {
    let zero = Roster::empty();
    // same
    compare(rt, zero, zero)?;
    // other, four times: a field of the machine
    compare(rt, zero, with_machine(zero, 1, 0, 0, 0))?;
    compare(rt, zero, with_machine(zero, 0, 1, 0, 0))?;
    compare(rt, with_machine(zero, 0, 0, 1, 0), zero)?;
    compare(rt, with_machine(zero, 0, 0, 0, 1), zero)?;
    // other: the first and the last entry of the table
    compare(rt, zero, with_entry(zero, 0, 1))?;
    compare(rt, zero, with_entry(zero, 31, 1))?;
    // other: the count
    compare(rt, zero, with_held(zero, 1))?;
    // other: a field of the first place and of the last
    compare(rt, zero, with_job(zero, 0, 1, 0, 0))?;
    compare(rt, zero, with_job(zero, 63, 0, 1, 0))?;
    compare(rt, with_deadline(with_job(zero, 63, 0, 0, 1), 63, 0), zero)?;
    compare(rt, with_deadline(zero, 63, 1), zero)
}
