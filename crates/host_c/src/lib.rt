// The calls of the library `host` for a host in C: each export is that library's function, with its clauses. include/planner.h declares them. `rt lib` makes
// the archive, and tools/archive puts it where C programs find it.
#![tactic(auto)]

ghost use Rattle.std.specs.Prelude.{◌≡◌};
ghost use Rattle.hexadecimal.specs.Text.{line_of};
ghost use Rattle.frame_writer.specs.Frames.{refusal_bytes};
ghost use Rattle.line_writer.specs.Page.{written};
ghost use Rattle.host.specs.Host.{refused_line, host_reply};
ghost use Rattle.host.specs.Replies.{replied_on};
ghost use Rattle.host.specs.Imports.{imported_on};

// Reads a sheet to its first refused line, or writes the plan of the roster at its end.
#[unsafe(no_mangle)]
pub extern "C" fn planner_plan_sheet(sheet: &[u8], page: &mut [u8], place: usize) -> u32
    ensures { replied_on result page.new ≡ host_reply sheet.now page.old place }
{
    host::planner_plan_sheet(sheet, page, place)
}

// The number of the line that ends the call above, or 0.
#[unsafe(no_mangle)]
pub extern "C" fn planner_refused_line(sheet: &[u8]) -> u32
    ensures { result ≡ refused_line sheet.now }
{
    host::planner_refused_line(sheet)
}

// Frame 8E, the refusal of a line.
#[unsafe(no_mangle)]
pub extern "C" fn planner_write_refusal(line: u32, number: u8, page: &mut [u8], place: usize) -> u32
    ensures { replied_on result page.new ≡ written page.old place (line_of (refusal_bytes line number)) }
{
    host::planner_write_refusal(line, number, page, place)
}

// Frame 01 of the machine that a list of frequencies gives.
#[unsafe(no_mangle)]
pub extern "C" fn planner_import(processors: u64, list: &[u8], page: &mut [u8], place: usize) -> u32
    ensures { replied_on result page.new ≡ imported_on processors list.now page.old place }
{
    host::planner_import(processors, list, page, place)
}
