// Calls made as lines. The definitions are in specs/.
#![tactic(auto)]

ghost use Rattle.std.specs.Prelude.{◌≡◌, List, [], ℕ, take};
ghost use Rattle.planner.specs.Model.{ReplaceTable, Admit};
ghost use Rattle.refusals.specs.Numbers.{refusal_number};
ghost use Rattle.calls.specs.Lines.{change, asked_as, asked, wants_frame, answered_on, malformed_number, nothing_written, reply_as, line_reply, passed_over};

use filing::file_plan;
use frame_kinds::Frame;
use frame_reader::read_line;
use planner::{Condition, Reply, Roster};
use refusals::Refusal;
use slack_calls::file_slack;

// The answer to a call made as a line, how many bytes of the page were written or a refusal, and the roster that comes back.
#[derive(Clone, Copy)]
pub struct LineAnswer {
    pub answer: Result<usize, Refusal>,
    pub roster: Roster,
}

// Why a malformed line is refused: a roster that breaks a rule is refused first.
pub fn malformed(roster: &Roster) -> Refusal
    ensures { refusal_number result ≡ malformed_number roster.now }
{
    match roster.inspect() {
        Condition::Damaged => Refusal::Damaged,
        _ => Refusal::Malformed,
    }
}

// The answer of a call that has no page.
fn changed(reply: Reply) -> LineAnswer
    ensures { result ≡ record { answer = nothing_written reply.answer; roster = reply.roster } }
{
    LineAnswer {
        answer: reply.answer.map(|()| 0),
        roster: reply.roster,
    }
}

// Kind 02: as many of the values as the frame counts, or all of them.
fn replace_table(roster: Roster, values: &[u32; 32], count: usize) -> LineAnswer
    ensures { (page : List ℕ) (place : ℕ) → answered_on result page ≡ reply_as roster (change (ReplaceTable (take count values.now))) page place }
{
    changed(roster.replace_table(&values[..count.min(32)]))
}

// Kinds 03 and 06. A frame 03 has its period for its deadline.
fn admit(roster: Roster, id: u16, cost: u16, period: u16, deadline: u16) -> LineAnswer
    ensures { (page : List ℕ) (place : ℕ) → answered_on result page ≡ reply_as roster (change (Admit id cost period deadline)) page place }
{
    changed(roster.admit(id as u64, cost as u64, period as u64, deadline as u64))
}

// Makes the call that a frame stands for, or that a malformed line does, on a roster and a lent page.
pub fn call_frame(roster: Roster, frame: Option<Frame>, page: &mut [u8], place: usize) -> LineAnswer
    ensures { answered_on result page.new ≡ reply_as roster (asked_as frame) page.old place }
{
    let Some(frame) = frame else {
        return LineAnswer {
            answer: Err(malformed(&roster)),
            roster,
        };
    };
    match frame {
        Frame::Machine {
            processors,
            levels,
            lowest,
            step,
        } => changed(roster.open_machine(
            processors as u64,
            levels as u64,
            lowest as u64,
            step as u64,
        )),
        Frame::Power { count, values } => replace_table(roster, &values, count),
        Frame::Admit { id, cost, period } => admit(roster, id, cost, period, period),
        Frame::Retire { id } => changed(roster.retire(id as u64)),
        Frame::PlanWanted => LineAnswer {
            answer: file_plan(&roster, page, place),
            roster,
        },
        Frame::SlackWanted => LineAnswer {
            answer: file_slack(&roster, page, place),
            roster,
        },
        Frame::AdmitDue {
            id,
            cost,
            period,
            deadline,
        } => admit(roster, id, cost, period, deadline),
    }
}

// Makes the call that a line stands for, on a roster and a lent page.
pub fn call_line(roster: Roster, line: &[u8], page: &mut [u8], place: usize) -> LineAnswer
    ensures { answered_on result page.new ≡ line_reply roster line.now page.old place }
{
    call_frame(roster, read_line(line), page, place)
}

// Whether a frame wants a frame on a page.
#[tactic(auto, unfolding(crate::specs::Lines::asked_as, crate::specs::Lines::wants_frame))]
fn wants_frame(frame: Option<Frame>) -> bool
    ensures { result ≡ wants_frame (asked_as frame) }
{
    let Some(frame) = frame else {
        return false;
    };
    matches!(frame, Frame::PlanWanted | Frame::SlackWanted)
}

// A line of the host's sheet: a wanted frame is passed over, and any other line is a call that is lent no page.
pub fn host_line(roster: Roster, line: &[u8]) -> LineAnswer
    ensures { answered_on result [] ≡ passed_over roster (asked line.now) }
{
    let frame = read_line(line);
    if wants_frame(frame) {
        return LineAnswer {
            answer: Ok(0),
            roster,
        };
    }
    call_frame(roster, frame, &mut [], 0)
}
