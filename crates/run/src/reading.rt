// What is read: the first record, and then as many bytes as come, behind those at hand.
ghost use Rattle.std.specs.Prelude.{◌≡◌, ◌+◌, ◌≤◌, length};
ghost use Rattle.codec.specs.Bytes.{part, patch};
ghost use Rattle.run.specs.Running.{FirstRead, Refilled, Kept, goes_on};

use crate::Turn;
use crate::console::Console;
use replay::input::{is_known, length, opening};
use replay::{Opening, Place};

// The first record's bytes, or fewer where the input ends before.
pub fn first_record<R: Input + Print>(console: &mut Console<R>, buf: &mut [u8]) -> Option<Opening>
    ensures { FirstRead buf.new result }
{
    if buf.len() < length::OPENING {
        return opening(&[]);
    }
    let got = console.read_full(&mut buf[..length::OPENING]);
    opening(&buf[..got])
}

// Where the input hasn't ended and the next piece isn't known yet, more is read.
pub fn refill<R: Input + Print>(console: &mut Console<R>, buf: &mut [u8], t: Turn) -> Turn
    ensures { Refilled t buf.old result buf.new }
{
    let have = t.have.min(buf.len());
    if t.ended || is_known(&buf[..have]) {
        return Turn { have, ..t };
    }
    let got = console.read(&mut buf[have..]);
    Turn {
        have: have + got,
        ended: got == 0,
        next: t.next,
    }
}

// The program goes on unless it has stopped or nothing is left of its input.
pub fn goes_on(t: Turn) -> bool
    ensures { result ≡ goes_on t }
{
    t.next != 0 && (!t.ended || 0 < t.have)
}

// n bytes from place at on are moved to the front.
fn move_to_front(buf: &mut [u8], at: usize, n: usize)
    requires { at + n ≤ length buf.old }
    ensures { buf.new ≡ patch buf.old 0 (part buf.old at n) }
{
    for i in 0..n {
        buf[i] = buf[at + i];
    }
}

// What the turn has used up is dropped.
pub fn keep(buf: &mut [u8], t: Turn, p: Place) -> Turn
    requires { t.have ≤ length buf.old }
    ensures { Kept t buf.old p result buf.new }
{
    if t.have < p.at {
        return Turn {
            have: 0,
            ended: t.ended,
            next: p.next,
        };
    }
    move_to_front(buf, p.at, t.have - p.at);
    Turn {
        have: t.have - p.at,
        ended: t.ended,
        next: p.next,
    }
}
