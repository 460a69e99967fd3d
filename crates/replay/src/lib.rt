// A recorded input on a replica: from bytes at hand, the calls that they ask, and the numbers of a line for each.
// Promises: the opening is judged as `opening_of` and `opens_with` say, and the pieces of any bytes, from any counters, memory, store and regions, leave what
// `steps` says, which on a whole input is 01's run (`program` of specs/Replay.antt, proofs/Whole.antt). It reads and prints nothing. Rests on `replica`.
#![tactic(auto)]

pub mod input;
pub mod lines;

ghost use Rattle.std.specs.Prelude.{◌≡◌, cond, [], ◌+◌, ◌^◌, ◌≤◌, ◌<◌, eqb, length};
ghost use Rattle.codec.specs.Bytes.{part, patch};
ghost use Rattle.replica.specs.Reply.{lent_to};
ghost use Rattle.replay.specs.Lines.{line_length, line_bytes, refused_opening, next_call};
ghost use Rattle.replay.specs.Requests.{asked_of};
ghost use Rattle.replay.specs.Replay.{after_answer, answered, opens_with, start, stopped, behind, with_line, standing, steps};

use blocks::Block;
use counters::Counters;
use replica::{Name, hydrangea_open, hydrangea_propose, hydrangea_record, hydrangea_timer};
use settings::{Height, Refusal, View};

// The five numbers of an opening.
#[derive(Clone, Copy)]
pub struct Opening {
    pub f: u64,
    pub c: u64,
    pub k: u64,
    pub n: u64,
    pub own: u64,
}

// A call that a piece of the input asks.
#[derive(Clone, Copy)]
pub enum Ask<'a> {
    Timer(View),
    Propose(Name),
    Record(&'a [u8]),
}

// How many bytes a piece of the input takes up, and what it asks: a call, or none and what it is refused by.
#[derive(Clone, Copy)]
pub struct Request<'a> {
    used: usize,
    asks: Result<Ask<'a>, Refusal>,
}

// How far the bytes at hand and the region of lines are used up, and the number of the next call: 0 where the program has stopped.
#[derive(Clone, Copy)]
pub struct Place {
    pub at: usize,
    pub filled: usize,
    pub next: u64,
}

// Answer 3 stops the program. The number stays at the largest u64, which no run reaches.
fn next_call(call: u64, answer: u64) -> u64
    ensures { result ≡ next_call call answer }
{
    if answer == u64::from(Refusal::Length) {
        return 0;
    }
    call.saturating_add(1)
}

// The line of a piece that was taken, and the place behind it.
fn report(c: Counters, lines: &mut [u8], used: usize, answer: u64, p: Place) -> Place
    requires { (p.filled + line_length ≤ length lines.old) × (p.at + used < 2 ^ 64) }
    ensures { (result ≡ behind p used answer) × (lines.new ≡ with_line lines.old p answer c) }
{
    lines::put_line(
        lines,
        p.filled,
        p.next,
        answer,
        c.view,
        c.timed,
        c.tip.height,
    );
    Place {
        at: p.at + used,
        filled: p.filled + lines::LINE,
        next: next_call(p.next, answer),
    }
}

// Before the first byte at hand, with an empty region of lines.
pub fn start(next: u64) -> Place
    ensures { result ≡ start next }
{
    Place {
        at: 0,
        filled: 0,
        next,
    }
}

// An accepted opening prints no line.
pub fn begin(lines: &mut [u8], refusal: u64) -> Place
    requires { line_length ≤ length lines.old }
    ensures { (result ≡ cond (eqb refusal 0) (start 1) stopped) × (lines.new ≡ cond (eqb refusal 0) lines.old (patch lines.old 0 (line_bytes refused_opening))) }
{
    if refusal == 0 {
        return start(1);
    }
    lines::put_line(
        lines,
        0,
        0,
        Refusal::Settings.into(),
        View(0),
        View(0),
        Height(0),
    );
    Place {
        at: 0,
        filled: lines::LINE,
        next: 0,
    }
}

// The opening is called where there is one: its leader list are the first n of a list of numbers.
pub fn open_call(
    counters: &mut Counters,
    mem: &mut [u8],
    store: &[Block],
    numbers: &[u8],
    opening: Option<Opening>,
) -> u64
    ensures { after_answer result (lent_to counters.new mem.new store.now) []
        ≡ opens_with (part numbers.now 0) (lent_to counters.old mem.old store.now) opening }
{
    match opening {
        Some(o) => {
            let leaders = input::first_of(numbers, o.n as usize);
            hydrangea_open(counters, mem, store, o.f, o.c, o.k, o.n, o.own, leaders).refusal
        }
        None => Refusal::Settings.into(),
    }
}

// The call that a piece asks is made; where it asks none, nothing changes. The number of its answer.
fn answer(
    counters: &mut Counters,
    mem: &mut [u8],
    store: &mut [Block],
    out: &mut [u8],
    asks: Result<Ask, Refusal>,
) -> u64
    ensures { after_answer result (lent_to counters.new mem.new store.new) out.new
        ≡ answered (lent_to counters.old mem.old store.old) out.old (asked_of asks.entry) }
{
    match asks {
        Ok(Ask::Timer(view)) => hydrangea_timer(counters, mem, store, out, view.0).refusal,
        Ok(Ask::Propose(name)) => hydrangea_propose(counters, mem, store, out, name).refusal,
        Ok(Ask::Record(rec)) => hydrangea_record(counters, mem, store, out, rec).refusal,
        Err(refusal) => refusal.into(),
    }
}

// Up to so many pieces from the place on, one after another.
pub fn run_steps(
    counters: &mut Counters,
    mem: &mut [u8],
    store: &mut [Block],
    out: &mut [u8],
    input: &[u8],
    lines: &mut [u8],
    ended: bool,
    most: usize,
    first: Place,
) -> Place
    ensures { standing (lent_to counters.new mem.new store.new) out.new lines.new result
        ≡ steps ended input.now most (standing (lent_to counters.old mem.old store.old) out.old lines.old first) }
{
    let mut p = first;
    let mut left = most;
    'pieces: while left > 0 {
        let Some(request) = input::next_request(input, lines.len(), ended, p) else {
            return p;
        };
        let answer = answer(counters, mem, store, out, request.asks);
        p = report(*counters, lines, request.used, answer, p);
        left -= 1;
    }
    p
}
