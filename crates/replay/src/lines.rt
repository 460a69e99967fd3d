// The lines that a run prints, as five numbers each in a region of bytes.
ghost use Rattle.std.specs.Prelude.{◌≡◌, ◌+◌, ◌≤◌, length};
ghost use Rattle.codec.specs.Bytes.{patch};
ghost use Rattle.protocol.specs.Listing.{line};
ghost use Rattle.replay.specs.Lines.{line_length, line_bytes};

use codec::num::put_u64;
use settings::{Height, View};

pub const LINE: usize = 40;

pub fn put_line(
    lines: &mut [u8],
    at: usize,
    call: u64,
    answer: u64,
    view: View,
    timed: View,
    height: Height,
)
    requires { at + line_length ≤ length lines.old }
    ensures { lines.new ≡ patch lines.old at (line_bytes (line call answer view.0 timed.0 height.0)) }
{
    put_u64(lines, at, call);
    put_u64(lines, at + 8, answer);
    put_u64(lines, at + 16, view.0);
    put_u64(lines, at + 24, timed.0);
    put_u64(lines, at + 32, height.0);
}
