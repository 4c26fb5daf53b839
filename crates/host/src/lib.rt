// The calls of a host in C: a sheet or a list, a page and a place. include/planner.h declares them. The definitions are in specs/.
#![tactic(auto)]

ghost use Rattle.std.specs.Prelude.{◌≡◌, ◌≤◌, length};
ghost use Rattle.hexadecimal.specs.Text.{line_of};
ghost use Rattle.frame_reader.specs.Lines.{longest_sheet};
ghost use Rattle.frame_writer.specs.Frames.{refusal_bytes};
ghost use Rattle.line_writer.specs.Page as page;
ghost use Rattle.line_writer.specs.Page.{written};
ghost use Rattle.host.specs.Host.{refused_line, EndsAs, host_reply};
ghost use Rattle.host.specs.Replies.{replied_on};
ghost use Rattle.host.specs.Imports.{imported_on};

use calls::host_line;
use filing::file_plan;
use frame_reader::LONGEST_SHEET;
use frame_writer::{write_machine, write_refusal};
use imports::find_machine;
use line_writer::NoRoom;
use planner::Roster;
use refusals::{Refusal, number_of};

// Why a sheet has no roster at its end: the refusal, and the number of the line that it refuses, 0 for the sheet itself.
#[derive(Clone, Copy)]
struct RefusedLine {
    refusal: Refusal,
    line: u32,
}

// The roster after the lines of a sheet, or the first line that is refused.
fn read_lines(sheet: &[u8]) -> Result<Roster, RefusedLine>
    requires { length sheet.now ≤ longest_sheet }
    ensures { EndsAs sheet.now result }
{
    let mut roster = Roster::empty();
    for (before, line) in sheet.split_inclusive(|byte| *byte == b'\n').enumerate() {
        let made = host_line(roster, line);
        // before the answer is looked at: the other way round a line that is passed over takes 115 instructions more
        roster = made.roster;
        if let Err(refusal) = made.answer {
            return Err(RefusedLine {
                refusal,
                line: before as u32 + 1,
            });
        }
    }
    Ok(roster)
}

// How a sheet ends. One that is too long is refused by 5.
fn read_sheet(sheet: &[u8]) -> Result<Roster, RefusedLine>
    ensures { EndsAs sheet.now result }
{
    if LONGEST_SHEET < sheet.len() {
        return Err(RefusedLine {
            refusal: Refusal::Malformed,
            line: 0,
        });
    }
    read_lines(sheet)
}

// Reads a sheet to its first refused line, or writes the plan of the roster at its end.
#[unsafe(no_mangle)]
pub extern "C" fn planner_plan_sheet(sheet: &[u8], page: &mut [u8], place: usize) -> u32
    ensures { replied_on result page.new ≡ host_reply sheet.now page.old place }
{
    match read_sheet(sheet) {
        Ok(roster) => number_of(&file_plan(&roster, page, place)) as u32,
        Err(refused) => refused.refusal.number() as u32,
    }
}

// The number of the line that ends the call above, or 0.
#[unsafe(no_mangle)]
pub extern "C" fn planner_refused_line(sheet: &[u8]) -> u32
    ensures { result ≡ refused_line sheet.now }
{
    match read_sheet(sheet) {
        Ok(_) => 0,
        Err(refused) => refused.line,
    }
}

// The number of a writer's answer, as C has it.
#[tactic(auto, unfolding(line_writer::specs::Page::number_of))]
fn writing_number(written: Result<(), NoRoom>) -> u32
    ensures { result ≡ page.number_of written }
{
    match written {
        Ok(()) => 0,
        Err(NoRoom) => 6,
    }
}

// Frame 8E, the refusal of a line.
#[unsafe(no_mangle)]
pub extern "C" fn planner_write_refusal(line: u32, number: u8, page: &mut [u8], place: usize) -> u32
    ensures { replied_on result page.new ≡ written page.old place (line_of (refusal_bytes line number)) }
{
    writing_number(write_refusal(line, number, page, place))
}

// Frame 01 of the machine that a list of frequencies gives.
#[unsafe(no_mangle)]
pub extern "C" fn planner_import(processors: u64, list: &[u8], page: &mut [u8], place: usize) -> u32
    ensures { replied_on result page.new ≡ imported_on processors list.now page.old place }
{
    match find_machine(processors, list) {
        Ok(machine) => writing_number(write_machine(
            machine.processors,
            machine.levels,
            machine.lowest,
            machine.step as u16,
            page,
            place,
        )),
        Err(refusal) => refusal.number() as u32,
    }
}
