// The edges of each range, inside and outside, and the widest arguments. Each call is made on the same roster.
use crate::calls::{admit, admitted, open, opened, retire};
use planner::Roster;
use std::io;

// m is 1 to 32, L 1 to 32, b 1 to 256, d 1 to 255.
pub fn machines(rt: &impl Print) -> io::Result<()> {
    let zero = Roster::empty();
    // 0, 0, 1, 1: m
    open(rt, zero, 1, 4, 1, 1)?;
    open(rt, zero, 32, 4, 1, 1)?;
    open(rt, zero, 0, 4, 1, 1)?;
    open(rt, zero, 33, 4, 1, 1)?;
    // 0, 0, 2, 2: L
    open(rt, zero, 4, 1, 1, 1)?;
    open(rt, zero, 4, 32, 1, 1)?;
    open(rt, zero, 4, 0, 1, 1)?;
    open(rt, zero, 4, 33, 1, 1)?;
    // 0, 0, 2, 2: b, which is also Q with one level; 2: b, where Q is 3
    open(rt, zero, 4, 1, 1, 1)?;
    open(rt, zero, 4, 1, 256, 1)?;
    open(rt, zero, 4, 1, 0, 1)?;
    open(rt, zero, 4, 1, 257, 1)?;
    open(rt, zero, 4, 4, 0, 1)?;
    // 0, 0, 2, 2: d
    open(rt, zero, 4, 2, 1, 1)?;
    open(rt, zero, 4, 2, 1, 255)?;
    open(rt, zero, 4, 2, 1, 0)?;
    open(rt, zero, 4, 2, 1, 256)?;
    // 0, 2, 2: with one level d is still given
    open(rt, zero, 4, 1, 1, 255)?;
    open(rt, zero, 4, 1, 1, 0)?;
    open(rt, zero, 4, 1, 1, 256)?;
    Ok(())
}

// Q = b + (L - 1) × d is at most 256.
pub fn top_speeds(rt: &impl Print) -> io::Result<()> {
    let zero = Roster::empty();
    // 0, 2: 1 + 3 × 85 = 256, 2 + 3 × 85 = 257
    open(rt, zero, 4, 4, 1, 85)?;
    open(rt, zero, 4, 4, 2, 85)?;
    // 0, 2: 8 + 31 × 8 = 256, 9 + 31 × 8 = 257
    open(rt, zero, 4, 32, 8, 8)?;
    open(rt, zero, 4, 32, 9, 8)?;
    // 2, 2: 2 + 255 = 257, 256 + 1 = 257
    open(rt, zero, 4, 2, 2, 255)?;
    open(rt, zero, 4, 2, 256, 1)?;
    // 2: 256 + 31 × 255 = 8161
    open(rt, zero, 4, 32, 256, 255)?;
    // 0: with one level d has no effect, 256
    open(rt, zero, 4, 1, 256, 255)?;
    // 2, 2: in 64 bits 1 + 2 × 2⁶³ would be 1, and 2⁶⁴ - 1 + 1 × 2 would be 1
    open(rt, zero, 4, 3, 1, 9_223_372_036_854_775_808)?;
    open(rt, zero, 4, 2, 18_446_744_073_709_551_615, 2)?;
    Ok(())
}

// In 8, 16 or 32 bits each of these but the largest would be in range.
pub fn wide_machines(rt: &impl Print) -> io::Result<()> {
    let zero = Roster::empty();
    let most = 18_446_744_073_709_551_615;
    // 1: m 256 + 1, 65536 + 1, 2³² + 1, 2⁶⁴ - 1
    open(rt, zero, 257, 4, 1, 1)?;
    open(rt, zero, 65_537, 4, 1, 1)?;
    open(rt, zero, 4_294_967_297, 4, 1, 1)?;
    open(rt, zero, most, 4, 1, 1)?;
    // 2: L 256 + 4, 65536 + 4, 2³² + 4, 2⁶⁴ - 1
    open(rt, zero, 4, 260, 1, 1)?;
    open(rt, zero, 4, 65_540, 1, 1)?;
    open(rt, zero, 4, 4_294_967_300, 1, 1)?;
    open(rt, zero, 4, most, 1, 1)?;
    // 2: b 65536 + 1, 2³² + 1, 2⁶⁴ - 1
    open(rt, zero, 4, 4, 65_537, 1)?;
    open(rt, zero, 4, 4, 4_294_967_297, 1)?;
    open(rt, zero, 4, 4, most, 1)?;
    // 2: d 256 + 1, 65536 + 1, 2³² + 1, 2⁶⁴ - 1
    open(rt, zero, 4, 4, 1, 257)?;
    open(rt, zero, 4, 4, 1, 65_537)?;
    open(rt, zero, 4, 4, 1, 4_294_967_297)?;
    open(rt, zero, 4, 4, 1, most)?;
    // 1: every one of them
    open(rt, zero, most, most, most, most)?;
    Ok(())
}

// An id, C and T are each 1 to 65,535. The machine has 32 processors and no job.
pub fn jobs(rt: &impl Print) -> io::Result<()> {
    let roster = opened(32, 4, 1, 1);
    let most = 18_446_744_073_709_551_615;
    // 0: all lowest; all highest; only the id, only C and T, only T the highest
    admit(rt, roster, 1, 1, 1)?;
    admit(rt, roster, 65_535, 65_535, 65_535)?;
    admit(rt, roster, 65_535, 1, 1)?;
    admit(rt, roster, 1, 65_535, 65_535)?;
    admit(rt, roster, 1, 1, 65_535)?;
    // 4: the id; in 16 or 32 bits 65537 and 2³² + 1 would be 1
    admit(rt, roster, 0, 1, 1)?;
    admit(rt, roster, 65_536, 1, 1)?;
    admit(rt, roster, 65_537, 1, 1)?;
    admit(rt, roster, 4_294_967_297, 1, 1)?;
    admit(rt, roster, most, 1, 1)?;
    // 4: C
    admit(rt, roster, 1, 0, 1)?;
    admit(rt, roster, 1, 65_536, 65_535)?;
    admit(rt, roster, 1, 65_537, 1)?;
    admit(rt, roster, 1, 4_294_967_297, 1)?;
    admit(rt, roster, 1, most, 65_535)?;
    // 4: T
    admit(rt, roster, 1, 1, 0)?;
    admit(rt, roster, 1, 1, 65_536)?;
    admit(rt, roster, 1, 1, 65_537)?;
    admit(rt, roster, 1, 1, 4_294_967_297)?;
    admit(rt, roster, 1, 1, most)?;
    // 4: all three
    admit(rt, roster, most, most, most)?;
    Ok(())
}

// The id to retire, where 1 and 65535 are held.
pub fn retired(rt: &impl Print) -> io::Result<()> {
    let roster = admitted(admitted(opened(2, 4, 1, 1), 1, 1, 4), 65_535, 1, 4);
    // 0
    retire(rt, roster, 1)?;
    retire(rt, roster, 65_535)?;
    // 4: 0 and 65536 are no ids
    retire(rt, roster, 0)?;
    retire(rt, roster, 65_536)?;
    // 4: in 16 or 32 bits these would be 1 and 1, and 65535 in 16
    retire(rt, roster, 65_537)?;
    retire(rt, roster, 4_294_967_297)?;
    retire(rt, roster, 18_446_744_073_709_551_615)?;
    // 14: ids that are not there
    retire(rt, roster, 2)?;
    retire(rt, roster, 65_534)?;
    Ok(())
}
