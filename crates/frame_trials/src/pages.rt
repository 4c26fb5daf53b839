// Frames into pages. A page is printed between bars; it is lent with a dot in each byte.
use line_writer::NoRoom;
use std::io;

// The longest page.
const LONGEST: usize = 580;

// Has a frame written on a page of that length, and prints the reply's number and the whole page.
fn on_page<F: FnOnce(&mut [u8]) -> Result<(), NoRoom>>(
    rt: &impl Print,
    length: usize,
    write: F,
) -> io::Result<()>
    requires { F.IsAlwaysCallable write }
{
    let mut room = [b'.'; LONGEST];
    let page = &mut room[..length.min(LONGEST)];
    let number = match write(page) {
        Ok(()) => 0,
        Err(NoRoom) => 6,
    };
    print!(rt; "{number} |")?;
    rt.write_all(page)?;
    println!(rt; "|")
}

// Frame 8E for line 7 and refusal 17.
fn refusal(rt: &impl Print, length: usize, place: usize) -> io::Result<()> {
    on_page(rt, length, |page| {
        frame_writer::write_refusal(7, 17, page, place)
    })
}

// The line is 8E0000000711 and its 0A, 13 bytes.
pub fn refusals(rt: &impl Print) -> io::Result<()> {
    // 0: from the start of the page, 7 bytes as lent after it
    refusal(rt, 20, 0)?;
    // 0: from place 3, with 3 bytes as lent before it and 4 after
    refusal(rt, 20, 3)?;
    // 0: it ends with the page; 6: the page from the place is a byte shorter than the line
    refusal(rt, 20, 7)?;
    refusal(rt, 20, 8)?;
    // 0 and 6: the same from the start of a page; a page of 12 bytes has no room for the 0A
    refusal(rt, 13, 0)?;
    refusal(rt, 12, 0)?;
    // 6: no byte is left at the place; the place is beyond the end; place and length are more than a number holds
    refusal(rt, 20, 20)?;
    refusal(rt, 20, 21)?;
    refusal(rt, 20, 18_446_744_073_709_551_615)?;
    // 6: a page of no bytes
    refusal(rt, 0, 0)
}

// Frame 81 for 5 jobs, H 10, power 163, 9 raises, levels 3 3 2 1.
fn plan(rt: &impl Print, length: usize, place: usize) -> io::Result<()> {
    on_page(rt, length, |page| {
        frame_writer::write_plan(5, 10, 163, 9, &[3, 3, 2, 1], page, place)
    })
}

// Frame 81 with wide numbers and 32 levels.
fn longest(rt: &impl Print, length: usize) -> io::Result<()> {
    let mut levels = [31; 32];
    levels[0] = 255;
    levels[31] = 1;
    on_page(rt, length, |page| {
        frame_writer::write_plan(255, 4_294_967_295, 305_419_896, 65_244, &levels, page, 0)
    })
}

pub fn plans(rt: &impl Print) -> io::Result<()> {
    // 0: 81050000000A000000A3000903030201 and its 0A, as 01 prints it: 33 bytes, with 2 as lent before it and 5 after
    plan(rt, 40, 2)?;
    // 0: it ends with the page; 6: it would end past it
    plan(rt, 40, 7)?;
    plan(rt, 40, 8)?;
    // 6: the head of the frame has no room
    plan(rt, 20, 0)?;
    // 0: n FF, H FFFFFFFF, power 12345678, raises FEDC, levels FF, thirty times 1F, 01: the longest frame 81, 89 bytes; 6: 88 bytes are one less
    longest(rt, 89)?;
    longest(rt, 88)
}

// Frame 83 for some of 32 tests: ticks −1 and remainder 3; 0123456789ABCDEF and 255; the least number and 0; the largest and 1; then 0 and 2.
fn slack(rt: &impl Print, count: usize, length: usize, place: usize) -> io::Result<()> {
    let mut ticks = [0; 32];
    ticks[0] = -1;
    ticks[1] = 81_985_529_216_486_895;
    ticks[2] = i64::MIN;
    ticks[3] = i64::MAX;
    let mut remainders = [2; 32];
    remainders[0] = 3;
    remainders[1] = 255;
    remainders[2] = 0;
    remainders[3] = 1;
    on_page(rt, length, |page| {
        slack_writer::write_slack(ticks, remainders, count, page, place)
    })
}

// A line of n tests has 18 n + 3 bytes.
pub fn slacks(rt: &impl Print) -> io::Result<()> {
    // 0: 83, FFFFFFFFFFFFFFFF 03 and the 0A, 21 bytes, with 1 as lent before it and 2 after
    slack(rt, 1, 24, 1)?;
    // 0: it ends with the page; 6: it would end past it
    slack(rt, 1, 24, 3)?;
    slack(rt, 1, 24, 4)?;
    // 0: no test, 83 and the 0A; 6: no room for the 0A
    slack(rt, 0, 3, 0)?;
    slack(rt, 0, 2, 0)?;
    // 0: 83, FFFFFFFFFFFFFFFF 03, 0123456789ABCDEF FF, 8000000000000000 00, 7FFFFFFFFFFFFFFF 01: 75 bytes
    slack(rt, 4, 75, 0)?;
    // 6, 0, 0: the longest frame, with 28 times 0000000000000000 02 after these: 579 bytes on a page of one less, of as many and of one more
    slack(rt, 32, 578, 0)?;
    slack(rt, 32, 579, 0)?;
    slack(rt, 32, 580, 0)?;
    // 0: from place 1 to the end of the page; 6: the place is the page's end
    slack(rt, 32, 580, 1)?;
    slack(rt, 32, 580, 580)?;
    // 0: a count beyond the tests is that of all
    slack(rt, 33, 579, 0)?;
    slack(rt, 18_446_744_073_709_551_615, 579, 0)
}
