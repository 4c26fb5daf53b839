// Room for an input of known length, and reading an input to its end into memory that the caller lends. Nothing is allocated.
#![tactic(auto)]

ghost use Rattle.std.specs.Prelude.{◌≡◌, ◌<◌, IfOk, All, length, take};
ghost use Rattle.std.specs.Io.{ReadsAtMost};
ghost use Rattle.std.specs.Io.KnownBytes.{Consumes, IsAtEnd};

use std::io;
use std::io::Read;

// Room of N bytes, each 0.
pub fn room<const N: usize>() -> [u8; N]
    ensures length { length result ≡ N }
    ensures zeros { All (λ byte. byte ≡ 0) result }
{
    [0; N]
}

// Reads to the end of the input or of the room; how many bytes were read. Where the reader's bytes are known, they are what it had next, and where they leave
// room, all that it had. Of standard input the library knows none.
pub fn read_input<R: Read>(input: &mut R, sheet: &mut [u8]) -> io::Result<usize>
    ensures bound { ReadsAtMost result sheet.new }
    ensures bytes { IfOk result (λ n. Consumes (R.remaining input.old) (R.remaining input.new) (take n sheet.new)) }
    ensures end { IfOk result (λ n. n < length sheet.new → IsAtEnd (R.remaining input.new)) }
{
    let mut done = 0;
    // A read says how much it gave, so there are no items to go over.
    while done < sheet.len() {
        let more = input.read(&mut sheet[done..])?;
        done += more;
        if more == 0 {
            return Ok(done);
        }
    }
    Ok(done)
}
