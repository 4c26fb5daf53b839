// The desk program: reads a sheet on standard input and writes its frames to standard output, and nothing else.
#![tactic(auto)]

use desk::Desk;
use inputs::{read_input, room};

// Page after page to the end of the sheet, or to the first failed write.
fn answer(rt: &impl Print, sheet: &[u8]) {
    let mut page = room::<65536>();
    let mut desk = Desk::start();
    // The desk says how far it has come, so there are no items to go over.
    while desk.at < sheet.len() {
        let filled = desk.fill(sheet, &mut page);
        let end = filled.end;
        if rt.write_all(&page[..end]).is_err() {
            return;
        }
        desk = filled.desk;
    }
}

// A failed read leaves the sheet unknown, so that nothing is written. There is room for the longest sheet and one byte more, by which a sheet too long
// is known.
fn main(rt: HostRuntime) {
    let mut sheet = room::<65537>();
    if let Ok(count) = read_input(&mut rt.stdin(), &mut sheet) {
        answer(&rt, &sheet[..count]);
    }
}
