// Refusal 7: a roster handed in that breaks a rule. Each rule is broken by itself, in a roster that is good but for it. All four calls must
// give 7 and the roster as it came, whatever else would refuse them.
use crate::by_hand::{with_deadline, with_entry, with_held, with_job, with_machine};
use crate::calls::{admitted, opened, told};
use crate::held::equal_jobs;
use planner::Roster;
use std::io;

// A line for a roster: the answers to four calls that a good roster of these trials accepts, but for the machine call where one is open and
// the others where none is; then to four that a good roster refuses.
fn calls(rt: &impl Print, label: &str, roster: Roster) -> io::Result<()> {
    let accepted = [
        roster.open_machine(2, 3, 2, 3),
        roster.replace_table(&[18, 48, 100]),
        roster.admit(15, 1, 4, 4),
        roster.retire(20),
    ];
    let refused = [
        roster.open_machine(0, 0, 0, 0),
        roster.replace_table(&[]),
        roster.admit(0, 0, 0, 0),
        roster.retire(0),
    ];
    print!(rt; "{label}:")?;
    for reply in accepted {
        told(rt, roster, reply)?;
    }
    print!(rt; ",")?;
    for reply in refused {
        told(rt, roster, reply)?;
    }
    println!(rt)
}

// m 2, speeds 2, 5 and 8, table 8 125 512. H 8; works 2, 4 and 3, where 16 are possible.
fn sound() -> Roster {
    let roster = admitted(opened(2, 3, 2, 3), 10, 1, 4);
    admitted(admitted(roster, 20, 1, 2), 30, 3, 8)
}

// Good rosters, each at an edge: 12, as a machine is open, then 0, 0 and 0 but where another reason is given; then 12, 3, 4 and 4.
pub fn good(rt: &impl Print) -> io::Result<()> {
    let good = sound();
    calls(rt, "good", good)?;
    // Q is 250 + 2 × 3 = 256
    calls(rt, "top speed 256", with_machine(good, 2, 3, 250, 3))?;
    // rises 117 and 117
    calls(rt, "equal rises", with_entry(good, 2, 242))?;
    calls(rt, "largest value", with_entry(good, 2, 16_777_216))?;
    // works 8, 4 and 4 fill 2 × 8: 17 for a job more
    let full = with_job(good, 0, 10, 4, 4);
    calls(rt, "full", with_job(full, 2, 30, 4, 8))?;
    // H is 4095 × 4097 = 16,777,215: 16 for a period of 4
    let long = with_job(with_job(good, 0, 10, 1, 4095), 1, 20, 1, 4097);
    calls(rt, "longest cycle", with_job(long, 2, 30, 1, 1))?;
    // no place is free: 15 for a job more
    calls(rt, "64 jobs", equal_jobs(opened(1, 3, 2, 3), 64, 1, 64))?;
    // no machine: 0, then 11 three times; 1, then 11 three times
    calls(rt, "none", Roster::empty())
}

// m 1 to 32, L 1 to 32, b 1 to 256, d 1 to 255, Q at most 256.
pub fn machines(rt: &impl Print) -> io::Result<()> {
    let good = sound();
    calls(rt, "processors 0", with_machine(good, 0, 3, 2, 3))?;
    calls(rt, "processors 33", with_machine(good, 33, 3, 2, 3))?;
    calls(rt, "processors 255", with_machine(good, 255, 3, 2, 3))?;
    calls(rt, "lowest 0", with_machine(good, 2, 3, 0, 3))?;
    calls(rt, "step 0", with_machine(good, 2, 3, 2, 0))?;
    // Q is 251 + 2 × 3
    calls(rt, "top speed 257", with_machine(good, 2, 3, 251, 3))?;
    // with one level d is still given; Q is b
    let one = opened(2, 1, 256, 255);
    calls(rt, "one level, step 0", with_machine(one, 2, 1, 256, 0))?;
    calls(
        rt,
        "one level, lowest 257",
        with_machine(one, 2, 1, 257, 255),
    )?;
    calls(
        rt,
        "one level, lowest 65535",
        with_machine(one, 2, 1, 65_535, 255),
    )?;
    // the table is of no values
    let none = with_entry(opened(2, 1, 2, 3), 0, 0);
    calls(rt, "levels 0", with_machine(none, 2, 0, 2, 3))?;
    // Q is 33 and 255; the table has 32 values that keep its rules
    let most = opened(2, 32, 1, 1);
    calls(rt, "levels 33", with_machine(most, 2, 33, 1, 1))?;
    calls(rt, "levels 255", with_machine(most, 2, 255, 1, 1))
}

pub fn tables(rt: &impl Print) -> io::Result<()> {
    let good = sound();
    // 512 stands after the values in force; 0 stands for a fourth value, a fall
    calls(rt, "levels 2 of 3", with_machine(good, 2, 2, 2, 3))?;
    calls(rt, "levels 4 of 3", with_machine(good, 2, 4, 2, 3))?;
    // 8 300 512: rises 292 and 212; 8 125 241: rises 117 and 116
    calls(rt, "shrinking rise", with_entry(good, 1, 300))?;
    calls(rt, "shrinking by 1", with_entry(good, 2, 241))?;
    // 126 125 512: a fall, and then a rise; 300 200 150: falls of 100 and then of 50
    calls(rt, "fall", with_entry(good, 0, 126))?;
    let falling = with_entry(with_entry(good, 0, 300), 1, 200);
    calls(rt, "two falls", with_entry(falling, 2, 150))?;
    calls(rt, "value 16777217", with_entry(good, 2, 16_777_217))?;
    calls(rt, "value 4294967295", with_entry(good, 2, 4_294_967_295))?;
    // zeros after the L values; 1331 is the cube of 11, the speed that would follow
    calls(rt, "entry 3 is 1331", with_entry(good, 3, 1331))?;
    calls(rt, "entry 3 is 1", with_entry(good, 3, 1))?;
    calls(rt, "entry 31 is 1", with_entry(good, 31, 1))
}

// At most 64 jobs, and as many as stand in the places. Unused places hold zeros.
pub fn counts(rt: &impl Print) -> io::Result<()> {
    let good = sound();
    let most = equal_jobs(opened(1, 3, 2, 3), 64, 1, 64);
    calls(rt, "count 65", with_held(most, 65))?;
    calls(rt, "count 255", with_held(most, 255))?;
    // a job is left in a place that is not counted
    calls(rt, "count 63 of 64", with_held(most, 63))?;
    calls(rt, "count 2 of 3", with_held(good, 2))?;
    calls(rt, "count 0 of 3", with_held(good, 0))?;
    // an unused place is counted
    calls(rt, "count 4 of 3", with_held(good, 4))?;
    calls(rt, "count 64 of 3", with_held(good, 64))?;
    // each field of the next place and of the last, and a job past the jobs
    calls(rt, "place 3 with an id", with_job(good, 3, 40, 0, 0))?;
    calls(rt, "place 3 with a cost", with_job(good, 3, 0, 1, 0))?;
    let period = with_job(good, 3, 0, 0, 4);
    calls(rt, "place 3 with a period", with_deadline(period, 3, 0))?;
    calls(rt, "place 3 with a deadline", with_deadline(good, 3, 4))?;
    calls(rt, "place 63 with an id", with_job(good, 63, 40, 0, 0))?;
    calls(rt, "place 63 with a cost", with_job(good, 63, 0, 1, 0))?;
    let last = with_job(good, 63, 0, 0, 4);
    calls(rt, "place 63 with a period", with_deadline(last, 63, 0))?;
    calls(rt, "place 63 with a deadline", with_deadline(good, 63, 4))?;
    calls(rt, "place 3 with a job", with_job(good, 3, 40, 1, 4))?;
    calls(rt, "place 40 with a job", with_job(good, 40, 40, 1, 4))
}

// By rising id, no id twice, each number at least 1; the cycle, and some plan that passes.
pub fn held_jobs(rt: &impl Print) -> io::Result<()> {
    let good = sound();
    calls(rt, "ids 10 20 20", with_job(good, 2, 20, 3, 8))?;
    calls(rt, "ids 10 10 30", with_job(good, 1, 10, 1, 2))?;
    calls(rt, "ids 10 20 15", with_job(good, 2, 15, 3, 8))?;
    calls(rt, "ids 25 20 30", with_job(good, 0, 25, 1, 4))?;
    calls(rt, "ids 0 20 30", with_job(good, 0, 0, 1, 4))?;
    calls(rt, "ids 10 0 30", with_job(good, 1, 0, 1, 2))?;
    calls(rt, "a hole", with_job(good, 1, 0, 0, 0))?;
    calls(rt, "first cost 0", with_job(good, 0, 10, 0, 4))?;
    calls(rt, "last cost 0", with_job(good, 2, 30, 0, 8))?;
    calls(rt, "first period 0", with_job(good, 0, 10, 1, 0))?;
    calls(rt, "last period 0", with_job(good, 2, 30, 3, 0))?;
    // H is 4096 × 4097, as 8 divides 4096
    let long = with_job(with_job(good, 0, 10, 1, 4096), 1, 20, 1, 4097);
    calls(rt, "cycle 16781312", long)?;
    // H is 257 × 65281, one above the limit
    let longer = with_job(with_job(good, 0, 10, 1, 257), 1, 20, 1, 65_281);
    calls(rt, "cycle 16777217", with_job(longer, 2, 30, 1, 1))?;
    // works 2, 4 and 9 are below 16, but 9 exceeds the period
    calls(rt, "cost 9 in 8", with_job(good, 2, 30, 9, 8))?;
    // works 8, 4 and 5, where 16 are possible
    let full = with_job(good, 0, 10, 4, 4);
    calls(rt, "works 17 of 16", with_job(full, 2, 30, 5, 8))?;
    // works 2, 4 and 3, where one processor has 8
    calls(rt, "works 9 of 8", with_machine(good, 1, 3, 2, 3))
}

// A deadline is 1 to its period. The cycle and the plan go by it.
pub fn deadlines(rt: &impl Print) -> io::Result<()> {
    let good = sound();
    // good: H 4; works 1, 2 and 3, where 8 are possible: 12, 0, 0, 0
    calls(rt, "deadline 4 in 8", with_deadline(good, 2, 4))?;
    calls(rt, "first deadline 0", with_deadline(good, 0, 0))?;
    calls(rt, "last deadline 0", with_deadline(good, 2, 0))?;
    calls(rt, "first deadline 5 in 4", with_deadline(good, 0, 5))?;
    calls(rt, "last deadline 9 in 8", with_deadline(good, 2, 9))?;
    calls(
        rt,
        "last deadline 65535 in 8",
        with_deadline(good, 2, 65_535),
    )?;
    // C is 3 of 8, but D is 2
    calls(rt, "cost 3 due after 2", with_deadline(good, 2, 2))?;
    // works 8, 4 and 4 fill 16, and with D = 1 the second is 8
    let full = with_job(good, 0, 10, 4, 4);
    let due = with_job(full, 2, 30, 4, 8);
    calls(rt, "works 20 of 16", with_deadline(due, 1, 1))?;
    // periods of 8192, and H is 4096 × 4097
    let wide = with_job(with_job(good, 0, 10, 1, 8192), 1, 20, 1, 8192);
    let long = with_deadline(wide, 0, 4096);
    calls(rt, "deadlines 4096 and 4097", with_deadline(long, 1, 4097))?;
    // good: periods 4096 and 4097, and H is 4096; works 1, 2 and 3 × 512, where 2 × 4096 are possible: 12, 0, 0, 0
    let periods = with_job(with_job(good, 0, 10, 1, 4096), 1, 20, 1, 4097);
    calls(
        rt,
        "deadlines 4096 and 2048",
        with_deadline(periods, 1, 2048),
    )
}

// With no machine it is all zeros and holds no job.
pub fn closed(rt: &impl Print) -> io::Result<()> {
    let zero = Roster::empty();
    calls(rt, "none, levels 1", with_machine(zero, 0, 1, 0, 0))?;
    calls(rt, "none, lowest 1", with_machine(zero, 0, 0, 1, 0))?;
    calls(rt, "none, step 1", with_machine(zero, 0, 0, 0, 1))?;
    calls(
        rt,
        "none, speeds of quarters",
        with_machine(zero, 0, 4, 1, 1),
    )?;
    calls(rt, "none, count 1", with_held(zero, 1))?;
    calls(rt, "none, entry 0", with_entry(zero, 0, 1))?;
    calls(rt, "none, entry 31", with_entry(zero, 31, 1))?;
    calls(rt, "none, place 0 with an id", with_job(zero, 0, 10, 0, 0))?;
    calls(rt, "none, place 0 with a cost", with_job(zero, 0, 0, 1, 0))?;
    let first = with_job(zero, 0, 0, 0, 4);
    calls(
        rt,
        "none, place 0 with a period",
        with_deadline(first, 0, 0),
    )?;
    calls(
        rt,
        "none, place 0 with a deadline",
        with_deadline(zero, 0, 4),
    )?;
    let last = with_job(zero, 63, 0, 0, 4);
    calls(
        rt,
        "none, place 63 with a period",
        with_deadline(last, 63, 0),
    )?;
    calls(
        rt,
        "none, place 63 with a deadline",
        with_deadline(zero, 63, 4),
    )?;
    calls(rt, "none, a job", with_held(with_job(zero, 0, 10, 1, 4), 1))
}
