// Reads lines on standard input and imports each, with its 0A, as a list of frequencies: the first with one processor, the second with two, and so on.
// For each it prints one line: the number of the answer; m, L, b and d of the roster's machine; 0 where the roster has no machine, 1 where it has one and
// keeps every rule, 7 where it breaks one; how many jobs it holds; and the 32 entries of its table.
// The file `stdout` has what must be printed for the lines in `stdin`. It is worked out from 02 by hand; a line of words is no list, and says what the
// lines after it are for.
#![tactic(auto)]

use gmf::Machine;
use imports::import_machine;
use inputs::{read_input, room};
use planner::{Condition, Reply, Roster};
use refusals::number_of;
use std::io;

// What a roster is found to be.
fn condition(roster: Roster) -> u8 {
    match roster.inspect() {
        Condition::Closed => 0,
        Condition::Open(_) => 1,
        Condition::Damaged => 7,
    }
}

// Prints what an import replied.
fn replied(rt: &impl Print, reply: Reply) -> io::Result<()> {
    let number = number_of(&reply.answer);
    let roster = reply.roster;
    let Machine {
        processors,
        levels,
        lowest,
        step,
    } = roster.machine;
    let found = condition(roster);
    let held = roster.held;
    print!(rt; "{number} {processors} {levels} {lowest} {step} {found} {held}")?;
    for value in roster.table {
        print!(rt; " {value}")?;
    }
    println!(rt)
}

// Line after line to the end of the input, or to the first failed write.
fn answer(rt: &impl Print, lines: &[u8]) -> io::Result<()> {
    let lines = lines.split_inclusive(|byte| *byte == b'\n');
    for (processors, line) in (1..=u64::MAX).zip(lines) {
        replied(rt, import_machine(processors, line))?;
    }
    Ok(())
}

fn main(rt: HostRuntime) -> io::Result<()> {
    let mut lines = room::<65536>();
    let count = read_input(&mut rt.stdin(), &mut lines)?;
    answer(&rt, &lines[..count])
}
