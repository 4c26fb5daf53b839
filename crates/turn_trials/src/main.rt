// Reads a sheet on standard input, goes through it as the desk does, as far as one page of frames has room, and prints the ids of the jobs that are
// held then, in the order in which they are taken: each found from the one taken before. After the last, one more is asked for: none is left, and
// no job's id is 0.
// The file `stdout` has what must be printed for the sheet in `stdin`. It is worked out by hand: the works stand in the sheet, where a line of words is
// a malformed line.
#![tactic(auto)]

use desk::Desk;
use inputs::{read_input, room};
use planner::Roster;
use selection::{next_job, none_taken};
use std::io;

// Job after job, and one turn more.
fn turns(rt: &impl Print, roster: Roster) -> io::Result<()> {
    let jobs = &roster.jobs[..usize::from(roster.held).min(64)];
    let mut job = none_taken();
    for _ in jobs {
        job = next_job(jobs, job);
        print!(rt; "{} ", job.id)?;
    }
    println!(rt; "{}", next_job(jobs, job).id)
}

fn main(rt: HostRuntime) -> io::Result<()> {
    let mut sheet = room::<65536>();
    let count = read_input(&mut rt.stdin(), &mut sheet)?;
    let mut page = room::<65536>();
    let filled = Desk::start().fill(&sheet[..count], &mut page);
    turns(&rt, filled.desk.roster)
}
