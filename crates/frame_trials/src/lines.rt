// Lines by themselves. Above each is what it must print, and why.
use crate::print::Said;
use frame_kinds::Frame;
use frame_reader::read_line;
use std::io;
use std::ops::Range;

fn read(rt: &impl Print, line: &[u8]) -> io::Result<()> {
    println!(rt; "{}", Said(read_line(line)))
}

fn machine_frames(rt: &impl Print) -> io::Result<()> {
    // machine 4 4 1 1: m (1 byte), L (1), b (2), d (2); the first line of 01's sheet
    read(rt, b"01040400010001\n")?;
    // machine 255 254 258 65020: each byte in its place, and the high byte of b and of d first: 1 × 256 + 2 and 253 × 256 + 252
    read(rt, b"01FFFE0102FDFC\n")?;
    // the same, twice: either letter case is read, and both in one line
    read(rt, b"01fffe0102fdfc\n")?;
    read(rt, b"01FfFe0102fDFc\n")?;
    // machine 0 0 0 0: ranges are not a matter of the line
    read(rt, b"01000000000000\n")
}

fn power_frames(rt: &impl Print) -> io::Result<()> {
    // power 1: 18, and zeros in the other 31 places
    read(rt, b"0200000012\n")?;
    // power 3: 18 48 100, and zeros in the other 29 places
    read(rt, b"02000000120000003000000064\n")?;
    // power 2: 16909060 4294967295: 1 × 256³ + 2 × 256² + 3 × 256 + 4, and the largest number of four bytes
    read(rt, b"0201020304ffffffff\n")?;
    // power 32: 1 to 32, no place left for a zero
    read(
        rt,
        b"020000000100000002000000030000000400000005000000060000000700000008000000090000000A0000000B0000000C0000000D0000000E0000000F000000100000001100000012000000130000001400000015000000160000001700000018000000190000001A0000001B0000001C0000001D0000001E0000001F00000020\n",
    )
}

fn other_frames(rt: &impl Print) -> io::Result<()> {
    // admit 1 10 10: id (2), C (2), T (2); the second line of 01's sheet
    read(rt, b"030001000A000A\n")?;
    // admit 258 772 1286: high byte first in each
    read(rt, b"03010203040506\n")?;
    // admit 258 772 1286 due 1800: id (2), C (2), T (2), D (2), high byte first in each; 1 10 10 due 11: ranges are not a matter of the line
    read(rt, b"060102030405060708\n")?;
    read(rt, b"060001000A000a000B\n")?;
    // retire 43981: id (2), AB CD is 171 × 256 + 205
    read(rt, b"04ABCD\n")?;
    read(rt, b"04abcd\n")?;
    // plan wanted, slack wanted: nothing follows the kind
    read(rt, b"05\n")?;
    read(rt, b"07\n")
}

pub fn good(rt: &impl Print) -> io::Result<()> {
    machine_frames(rt)?;
    power_frames(rt)?;
    other_frames(rt)
}

fn wrong_ends(rt: &impl Print) -> io::Result<()> {
    // not closed by 0A: no byte at all; a good frame without its 0A; one that ends in another byte
    read(rt, b"")?;
    read(rt, b"05")?;
    read(rt, b"05\r")?;
    // empty
    read(rt, b"\n")?;
    // an odd number of digits
    read(rt, b"5\n")?;
    read(rt, b"050\n")?;
    read(rt, b"0104040001000\n")
}

fn wrong_digits(rt: &impl Print) -> io::Result<()> {
    // a wrong digit: past 9, past F, past f, before 0, before A, before a; high and low
    read(rt, b":5\n")?;
    read(rt, b"0:\n")?;
    read(rt, b"0G\n")?;
    read(rt, b"0g\n")?;
    read(rt, b"/5\n")?;
    read(rt, b"0@\n")?;
    read(rt, b"0`\n")
}

fn other_bytes(rt: &impl Print) -> io::Result<()> {
    // a wrong digit: a blank, a carriage return, another 0A, a sign, the x of other notations
    read(rt, b" 5\n")?;
    read(rt, b"05\r\r\n")?;
    read(rt, b"05\n\n\n")?;
    read(rt, b"+5\n")?;
    read(rt, b"0x05\n")
}

fn unknown_kinds(rt: &impl Print) -> io::Result<()> {
    // an unknown kind: 00; 08, which follows the last kind; 50 and 70, with their digits exchanged; two that are only written; the last byte
    read(rt, b"00\n")?;
    read(rt, b"08\n")?;
    read(rt, b"50\n")?;
    read(rt, b"70\n")?;
    read(rt, b"81\n")?;
    read(rt, b"83\n")?;
    read(rt, b"FF\n")
}

fn wrong_lengths(rt: &impl Print) -> io::Result<()> {
    // a wrong length: a byte less and a byte more for 01, 03, 04, 06; a byte more for 05, 07; none, 3 and 5 bytes for 02; none and those of 03 for
    // 06
    read(rt, b"010404000100\n")?;
    read(rt, b"0104040001000100\n")?;
    read(rt, b"030001000A00\n")?;
    read(rt, b"030001000A000A00\n")?;
    read(rt, b"0400\n")?;
    read(rt, b"04000100\n")?;
    read(rt, b"060001000A000A00\n")?;
    read(rt, b"060001000A000A000A00\n")?;
    read(rt, b"0500\n")?;
    read(rt, b"0700\n")?;
    read(rt, b"02\n")?;
    read(rt, b"02000000\n")?;
    read(rt, b"020000001200\n")?;
    read(rt, b"06\n")?;
    read(rt, b"060001000A000A\n")
}

// Each of their lines is malformed.
pub fn damaged(rt: &impl Print) -> io::Result<()> {
    wrong_ends(rt)?;
    wrong_digits(rt)?;
    other_bytes(rt)?;
    unknown_kinds(rt)?;
    wrong_lengths(rt)
}

// Reads a line of a kind with n zero bytes after it, and prints kind and n where that is a frame.
fn read_zeros(rt: &impl Print, kind: u8, n: usize) -> io::Result<()> {
    let mut line = [b'0'; 267];
    if 132 < n {
        return Ok(());
    }
    let end = 2 + 2 * n;
    line[0] = hexadecimal::digit_of(kind / 16);
    line[1] = hexadecimal::digit_of(kind);
    line[end] = b'\n';
    if read_line(&line[..=end]).is_none() {
        return Ok(());
    }
    println!(rt; "frame {kind} {n}")
}

// A kind with some lengths.
fn lengths_of(rt: &impl Print, kind: u8, lengths: Range<usize>) -> io::Result<()> {
    for n in lengths {
        read_zeros(rt, kind, n)?;
    }
    Ok(())
}

// Every kind with 0 to 9 bytes after it: frames are 01 and 03 with 6, 02 with 4 and 8, 04 with 2, 06 with 8, 05 and 07 with none. Then 02 with 10 to
// 132: frames are those in fours up to 128.
pub fn lengths(rt: &impl Print) -> io::Result<()> {
    for kind in 0..=255 {
        lengths_of(rt, kind, 0..10)?;
    }
    lengths_of(rt, 2, 10..133)
}

// Reads 0400 with a digit more and one byte for the last, and prints the byte and the identifier where that is a frame.
fn read_digit(rt: &impl Print, byte: u8) -> io::Result<()> {
    let line = [b'0', b'4', b'0', b'0', b'0', byte, b'\n'];
    if let Some(Frame::Retire { id }) = read_line(&line) {
        println!(rt; "digit {byte} {id}")?;
    }
    Ok(())
}

// Every byte as a digit: 48 to 57 are 0 to 9, 65 to 70 and 97 to 102 are 10 to 15, and no other byte is a digit.
pub fn digits(rt: &impl Print) -> io::Result<()> {
    for byte in 0..=255 {
        read_digit(rt, byte)?;
    }
    Ok(())
}
