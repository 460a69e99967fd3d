// 01's run program: records on standard input, and a line for each call on standard output.
// Promises: it is safe on any input, comes to its end, and leaves its replica as 01's run of what it read does (`Program` of specs/Running.antt, proofs/Whole.antt). It
// goes by turns: bytes are read behind those at hand, `replay` takes the pieces that are known and gives their lines, which are printed, and the rest is kept. That the
// operating system's calls read and write what they say is assumed; the digits printed are tested. Where a read or a write fails, `main` ends with the error. Rests on `replay`.
#![tactic(auto)]

mod console;
mod printing;
mod reading;

ghost use Rattle.std.specs.Prelude.{◌≡◌, true, ◌-◌, ◌^◌, ◌≤◌, length, take};
ghost use Rattle.settings.specs.Quorum.{largest};
ghost use Rattle.replica.specs.Reply.{lent_to};
ghost use Rattle.replay.specs.Lines.{line_length};
ghost use Rattle.replay.specs.Replay.{standing, start, steps};
ghost use Rattle.run.specs.Running.{goes_on, between, Went, Turns, Program, ProgramWithStore};

use blocks::{Block, STORE_LENGTH};
use console::Console;
use counters::{Counters, opened};
use refusals::regions::OUTPUT_LENGTH;
use replay::input::{first_of, put_in_turn};
use replay::lines::LINE;
use replay::{Place, begin, open_call, run_steps, start};
use settings::Height;
use std::io;
use wire::length::HEADER;

// The bytes at hand, more than the longest record has, and a line for each record that they can hold.
const INPUT_LENGTH: usize = 8192;

const LINES_LENGTH: usize = INPUT_LENGTH / HEADER * LINE;

// What stands between two turns: how many bytes are at hand, whether the input has ended, and the number of the next call, 0 where the program has stopped.
#[derive(Clone, Copy)]
struct Turn {
    have: usize,
    ended: bool,
    next: u64,
}

// An entry of a store that holds nothing.
const EMPTY: Block = Block {
    name: [0u8; 32],
    parent: [0u8; 32],
    height: Height(0),
};

// The pieces that are known of the bytes at hand.
fn replay_known(
    counters: &mut Counters,
    mem: &mut [u8],
    store: &mut [Block],
    out: &mut [u8],
    buf: &[u8],
    lines: &mut [u8],
    t: Turn,
) -> Place
    ensures { standing (lent_to counters.new mem.new store.new) out.new lines.new result
        ≡ steps t.ended (take t.have buf.now) (length (take t.have buf.now))
        (standing (lent_to counters.old mem.old store.old) out.old lines.old (start t.next)) }
{
    let input = first_of(buf, t.have);
    run_steps(
        counters,
        mem,
        store,
        out,
        input,
        lines,
        t.ended,
        input.len(),
        start(t.next),
    )
}

// More bytes are read, the pieces that are known are taken, their lines are printed, and the rest of the bytes is kept.
fn take_turn<R: Input + Print>(
    console: &mut Console<R>,
    counters: &mut Counters,
    mem: &mut [u8],
    store: &mut [Block],
    out: &mut [u8],
    buf: &mut [u8],
    lines: &mut [u8],
    t: Turn,
) -> Turn
    requires { (goes_on t ≡ true) × (line_length ≤ length lines.old) }
    ensures { Went (between (lent_to counters.old mem.old store.old) out.old buf.old lines.old t)
        (between (lent_to counters.new mem.new store.new) out.new buf.new lines.new result) }
{
    let read = reading::refill(console, buf, t);
    let p = replay_known(counters, mem, store, out, buf, lines, read);
    console.print(lines, p.filled);
    reading::keep(buf, read, p)
}

// Turns one after another, while the program goes on.
fn run_turns<R: Input + Print>(
    console: &mut Console<R>,
    counters: &mut Counters,
    mem: &mut [u8],
    store: &mut [Block],
    out: &mut [u8],
    buf: &mut [u8],
    lines: &mut [u8],
    first: Turn,
) -> Turn
    requires { line_length ≤ length lines.old }
    ensures { Turns (2 ^ 64 - 1) (between (lent_to counters.old mem.old store.old) out.old buf.old lines.old first)
        (between (lent_to counters.new mem.new store.new) out.new buf.new lines.new result) }
{
    let mut t = first;
    for _turn in 0..u64::MAX {
        if !reading::goes_on(t) {
            return t;
        }
        t = take_turn(console, counters, mem, store, out, buf, lines, t);
    }
    t
}

// ---- the regions: each as long as a call asks, the bytes at hand, and the lines

fn with_counters<R: Input + Print>(
    console: &mut Console<R>,
    mem: &mut [u8],
    store: &mut [Block],
    out: &mut [u8],
    buf: &mut [u8],
    lines: &mut [u8],
) -> Turn
    requires { (line_length ≤ length lines.old) × (largest ≤ length buf.old) }
    ensures { Program (2 ^ 64 - 1) mem.old store.old out.old lines.old mem.new store.new out.new lines.new result }
{
    let opening = reading::first_record(console, buf);
    // the first record is read: until more is, the numbers of the leader list stand in its place
    put_in_turn(buf);
    let mut c = opened();
    let refusal = open_call(&mut c, mem, store, buf, opening);
    let p = begin(lines, refusal);
    console.print(lines, p.filled);
    // no byte is at hand
    let first = Turn {
        have: 0,
        ended: false,
        next: p.next,
    };
    run_turns(console, &mut c, mem, store, out, buf, lines, first)
}

fn with_store<R: Input + Print>(
    console: &mut Console<R>,
    mem: &mut [u8],
    out: &mut [u8],
    buf: &mut [u8],
    lines: &mut [u8],
) -> Turn
    requires { (line_length ≤ length lines.old) × (largest ≤ length buf.old) }
    ensures { ProgramWithStore (2 ^ 64 - 1) mem.old out.old lines.old mem.new out.new lines.new result }
{
    let mut store = [EMPTY; STORE_LENGTH];
    with_counters(console, mem, &mut store, out, buf, lines)
}

fn main(rt: HostRuntime) -> io::Result<()> {
    let mut mem = [0u8; memory::LENGTH];
    let mut out = [0u8; OUTPUT_LENGTH];
    let mut buf = [0u8; INPUT_LENGTH];
    let mut lines = [0u8; LINES_LENGTH];
    let mut console = Console::new(rt);
    console.header();
    with_store(&mut console, &mut mem, &mut out, &mut buf, &mut lines);
    console.finish()
}
