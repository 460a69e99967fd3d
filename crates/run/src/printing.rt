// What is printed.
ghost use Rattle.std.specs.Prelude.{◌≤◌, length};
ghost use Rattle.replay.specs.Lines.{line_length};

use codec::num::u64_at;
use replay::input::first_of;
use replay::lines::LINE;
use std::io;

fn print_line(rt: &impl Print, line: &[u8]) -> io::Result<()>
    requires { line_length ≤ length line.now }
{
    let call = u64_at(line, 0);
    let answer = u64_at(line, 8);
    let view = u64_at(line, 16);
    let timed = u64_at(line, 24);
    let height = u64_at(line, 32);
    println!(rt; "{call} {answer} {view} {timed} {height}")
}

// The lines in the first bytes of the region, as far as it goes.
pub fn print(rt: &impl Print, lines: &[u8], filled: usize) -> io::Result<()> {
    for line in first_of(lines, filled).chunks_exact(LINE) {
        print_line(rt, line)?;
    }
    Ok(())
}
