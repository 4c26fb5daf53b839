// Reads a sheet on standard input and makes its lines as calls, from the roster of all zeros. Before each well-formed line 03 or 06 is made, the
// library call is asked for the slack with its job, and the answer is printed; nothing else is. What is beyond 65,536 bytes is not read.
// The file `stdout` has what must be printed for the sheet in `stdin`. It is worked out from 01 and 02 by hand: the reason of each result stands
// in the sheet, where a line of words is a malformed line.
#![tactic(auto)]

mod print;

use calls::call_frame;
use frame_kinds::Frame;
use frame_reader::read_line;
use inputs::{read_input, room};
use planner::Roster;
use print::Slack;
use slack_calls::slack_with;
use std::io;

// Prints the slack with a job.
fn asked(
    rt: &impl Print,
    roster: &Roster,
    id: u16,
    cost: u16,
    period: u16,
    deadline: u16,
) -> io::Result<()> {
    let slack = slack_with(
        roster,
        u64::from(id),
        u64::from(cost),
        u64::from(period),
        u64::from(deadline),
    );
    println!(rt; "{}", Slack(slack))
}

// Prints the slack with the job of an admit frame.
fn offered(rt: &impl Print, roster: &Roster, frame: Option<Frame>) -> io::Result<()> {
    match frame {
        Some(Frame::Admit { id, cost, period }) => asked(rt, roster, id, cost, period, period),
        Some(
            Frame::AdmitDue {
                id,
                cost,
                period,
                deadline,
            },
        ) => asked(rt, roster, id, cost, period, deadline),
        _ => Ok(()),
    }
}

// Line after line to the end of the sheet, or to the first failed write. The page has room for the longest frame, and is thrown away.
fn answer(rt: &impl Print, sheet: &[u8]) -> io::Result<()> {
    let mut page = [0; 600];
    let mut roster = Roster::empty();
    for line in sheet.split_inclusive(|byte| *byte == b'\n') {
        let frame = read_line(line);
        offered(rt, &roster, frame)?;
        roster = call_frame(roster, frame, &mut page, 0).roster;
    }
    Ok(())
}

fn main(rt: HostRuntime) -> io::Result<()> {
    let mut sheet = room::<65536>();
    let count = read_input(&mut rt.stdin(), &mut sheet)?;
    answer(&rt, &sheet[..count])
}
