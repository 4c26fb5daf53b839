// The desk's sheets, page by page. The definitions are in specs/.
#![tactic(auto)]

ghost use Rattle.std.specs.Prelude.{◌≡◌, ◌+◌, ◌≤◌, ◌⊎◌, length, drop};
ghost use Rattle.hexadecimal.specs.Text.{line_of};
ghost use Rattle.frame_reader.specs.Lines.{lines_of};
ghost use Rattle.frame_writer.specs.Frames.{refusal_bytes};
ghost use Rattle.planner.specs.declared.Roster as rosters;
ghost use Rattle.refusals.specs.Numbers.{refusal_number, number_of};
ghost use Rattle.filing.specs.Plans.{put_on};
ghost use Rattle.calls.specs.Lines.{count_in};
ghost use Rattle.desk.specs.Pages.{at_start, settled, filled_on, fill_lines, fill_too_long, fill_page};

use calls::{call_frame, malformed};
use frame_reader::{LONGEST_SHEET, line_end, read_line};
use planner::Roster;
use refusals::Refusal;

// The longest frame out with its 0A.
const LONGEST_FRAME: usize = 579;

// Where the desk is in its sheet: the roster, the position of the next line, and its number.
#[derive(Clone, Copy)]
pub struct Desk {
    pub roster: Roster,
    pub at: usize,
    pub line: u32,
}

// Where the desk is after a page, and how far the page is filled.
#[derive(Clone, Copy)]
pub struct Filled {
    pub desk: Desk,
    pub end: usize,
}

// Writes the frame of a refused line, where it has room; how many bytes were written: two digits for each of 6 bytes, and the 0A.
fn put_refusal(line: u32, refusal: Refusal, page: &mut [u8], place: usize) -> usize
    ensures { let put = put_on page.old place (line_of (refusal_bytes line (refusal_number refusal))) in (result ≡ put.count) × (page.new ≡ put.page) }
{
    let number = refusal.number();
    match frame_writer::write_refusal(line, number, page, place) {
        Ok(()) => 13,
        Err(_) => 0,
    }
}

// Files the refusal of a line, where it was refused; how far the page is filled then.
fn settle(answer: Result<usize, Refusal>, line: u32, page: &mut [u8], place: usize) -> usize
    requires { (count_in answer ≡ 0) ⊎ (place + count_in answer ≤ length page.old) }
    ensures { (roster : rosters.Roster) → record { roster = roster; page = page.new; end = result } ≡ settled line place record { number = number_of answer; roster = roster; page = page.old; count = count_in answer } }
{
    match answer {
        Ok(count) => place + count,
        Err(refusal) => place + put_refusal(line, refusal, page, place),
    }
}

// Line after line from where the desk is, while the page has room for the longest frame. A malformed line is no call, and needs no second
// look at the roster: by what it is refused stays the same from line to line.
fn fill_lines(desk: Desk, sheet: &[u8], page: &mut [u8]) -> Filled
    ensures { filled_on result page.new ≡ fill_lines desk (lines_of (drop desk.at sheet.now)) page.old 0 }
{
    let mut roster = desk.roster;
    let refusal = malformed(&roster);
    let mut at = desk.at;
    let mut line = desk.line;
    let mut end = 0;
    // By position: the desk goes on at this one with the next page.
    while at < sheet.len() {
        if page.len() - end < LONGEST_FRAME {
            break;
        }
        let next = line_end(sheet, at);
        let frame = read_line(&sheet[at..next]);
        let answer = if frame.is_some() {
            let made = call_frame(roster, frame, page, end);
            roster = made.roster;
            made.answer
        } else {
            Err(refusal)
        };
        end = settle(answer, line, page, end);
        at = next;
        line = line.wrapping_add(1);
    }
    Filled {
        desk: Desk { roster, at, line },
        end,
    }
}

// A sheet too long is refused once, and none of its lines is read.
fn fill_too_long(desk: Desk, size: usize, page: &mut [u8]) -> Filled
    ensures { filled_on result page.new ≡ fill_too_long desk size page.old }
{
    if size <= desk.at || page.len() < LONGEST_FRAME {
        return Filled { desk, end: 0 };
    }
    let end = put_refusal(0, Refusal::Malformed, page, 0);
    Filled {
        desk: Desk { at: size, ..desk },
        end,
    }
}

impl Desk {
    // Before the first line of a sheet.
    pub fn start() -> Desk
        ensures { result ≡ at_start }
    {
        Desk {
            roster: Roster::empty(),
            at: 0,
            line: 1,
        }
    }

    // Fills a page with what the desk writes from where it is.
    pub fn fill(self, sheet: &[u8], page: &mut [u8]) -> Filled
        ensures { filled_on result page.new ≡ fill_page self sheet.now page.old }
    {
        if LONGEST_SHEET < sheet.len() {
            return fill_too_long(self, sheet.len(), page);
        }
        fill_lines(self, sheet, page)
    }
}
