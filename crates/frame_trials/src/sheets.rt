// Sheets, line by line.
use crate::print::Said;
use frame_reader::{line_end, read_line};
use std::io;

// Prints where each line starts and ends, and what it holds.
#[tactic(auto, using(frame_reader::proofs::Lines::next_within))]
fn read(rt: &impl Print, sheet: &[u8]) -> io::Result<()> {
    println!(rt; "sheet")?;
    let mut start = 0;
    // No `split_inclusive`: where `line_end` finds a line's end is what is tried here.
    while start < sheet.len() {
        let end = line_end(sheet, start);
        println!(rt;
            "line {start} {end} {}",
            Said(read_line(&sheet[start..end]))
        )?;
        start = end;
    }
    Ok(())
}

pub fn taken_apart(rt: &impl Print) -> io::Result<()> {
    // no line: the sheet is empty
    read(rt, b"")?;
    // line 0 3 plan wanted: after a last 0A no line follows
    read(rt, b"05\n")?;
    // line 0 3 plan wanted, line 3 7 malformed: a last line without its 0A is a line, and is not closed
    read(rt, b"05\n0400")?;
    // line 0 1 malformed, line 1 2 malformed: two empty lines
    read(rt, b"\n\n")?;
    // line 0 2 malformed: one line that nothing closes, though it would be a good frame
    read(rt, b"05")?;
    // machine 4 4 1 1, malformed, retire 1, plan wanted: lines of any length, an empty one between them
    read(rt, b"01040400010001\n\n040001\n05\n")?;
    // past 3 4 18446744073709551615: a line that starts past the end of a sheet of 3 bytes ends where it starts
    println!(rt;
        "past {} {} {}",
        line_end(b"05\n", 3),
        line_end(b"05\n", 4),
        line_end(b"05\n", usize::MAX)
    )
}
