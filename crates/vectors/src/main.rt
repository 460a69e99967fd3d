// The published vectors (02, 2.5): reads messages, a line of hexadecimal digits each, and writes a line for each: its digest, and the name of the block whose parent is that
// digest, whose height is the message's length and whose contents are the message. Where the name is refused, the number of the refusal stands in its place; a line that isn't
// whole bytes gets `-`; one that begins with `#` is written as it is. At most 65,536 bytes are read.
// Promises: it is safe on any input and comes to its end. What it writes for published messages, in `stdin`, is held to `stdout`. Where a read or a write fails, it ends with the error. Rests on `digest`.
#![tactic(auto)]

ghost use Rattle.std.specs.Prelude.{◌≤◌, ◌<◌, length, IfOk};
ghost use Rattle.std.specs.Option.{SomeIff};
ghost use Rattle.std.specs.Char.{digit_value};

use codec::num::be_at;
use std::io;
use std::io::Read;

// The most bytes that are read.
const SPACE: usize = 65536;

// Reads until it is full, or the input ends.
fn read_full(rt: &impl Input, space: &mut [u8]) -> io::Result<usize>
    ensures { IfOk result (λ n. n ≤ length space.new) }
{
    let mut done = 0;
    while done < space.len() {
        let got = rt.reader().read(&mut space[done..])?;
        if got == 0 {
            break;
        }
        done += got;
    }
    Ok(done)
}

// As one write: a digest by bytes would be 32 of them.
fn show(rt: &impl Print, digest: [u8; 32]) -> io::Result<()> {
    let first = be_at(&digest, 0, 8);
    let second = be_at(&digest, 8, 8);
    let third = be_at(&digest, 16, 8);
    let last = be_at(&digest, 24, 8);
    print!(rt; "{first:016x}{second:016x}{third:016x}{last:016x}")
}

fn answer(rt: &impl Print, message: &[u8]) -> io::Result<()> {
    let digest = digest::sha256(message);
    show(rt, digest)?;
    print!(rt; " ")?;
    match digest::name(digest, message.len() as u64, message) {
        Ok(name) => show(rt, name)?,
        Err(refusal) => print!(rt; "{}", u64::from(refusal))?,
    }
    println!(rt; "")
}

// The value of a hexadecimal digit.
fn value(c: u8) -> Option<u8>
    ensures { SomeIff result (digit_value c < 16) (digit_value c) }
{
    char::from(c).to_digit(16).map(|digit| digit as u8)
}

// The bytes that a line stands for, at the front of a region; none where it isn't whole bytes, or the region is too short.
fn decode<'a>(line: &[u8], message: &'a mut [u8]) -> Option<&'a [u8]> {
    if line.len() % 2 != 0 {
        return None;
    }
    for (byte, pair) in message.iter_mut().zip(line.chunks_exact(2)) {
        *byte = 16 * value(pair[0])? + value(pair[1])?;
    }
    message.get(..line.len() / 2)
}

fn answer_line(rt: &impl Print, line: &[u8], message: &mut [u8]) -> io::Result<()> {
    if line.starts_with(b"#") {
        rt.write_all(line)?;
        return println!(rt; "");
    }
    match decode(line, message) {
        Some(bytes) => answer(rt, bytes),
        None => println!(rt; "-"),
    }
}

fn lines(rt: &impl Print, s: &[u8], message: &mut [u8]) -> io::Result<()> {
    for line in s.split_inclusive(|&byte| byte == b'\n') {
        answer_line(rt, line.strip_suffix(b"\n").unwrap_or(line), message)?;
    }
    Ok(())
}

fn main(rt: HostRuntime) -> io::Result<()> {
    let mut space = [0u8; SPACE];
    let mut message = [0u8; SPACE];
    let n = read_full(&rt, &mut space)?;
    lines(&rt, &space[..n], &mut message)
}
