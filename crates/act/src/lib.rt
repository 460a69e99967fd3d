// The actions that accepted calls are made of: sending a vote, a commit or a timeout, and acting on a certificate. Over counters by value, lent
// memory and output. Promises: each leaves counters, memory and written bytes as the action of `protocol` with its name does (`Does`), whatever the
// store, and the output's bytes behind them as they were. It asks that memory passes refusal 2 and that what it writes has room. Rests on `memory`,
// `counters`, `certificate` and `wire`.
#![tactic(auto)]

pub mod progress;

ghost use Rattle.std.specs.Prelude.{◌≡◌, ◌+◌, ◌≤◌};
ghost use Rattle.codec.specs.Names.{name_length};
ghost use Rattle.wire.specs.Kinds.{number};
ghost use Rattle.wire.specs.Fields.{vote_length, timeout_length};
ghost use Rattle.memory.specs.Layout.{memory_length, row_size};
ghost use Rattle.protocol.specs.Work.{send_vote, send_commit, send_timeout};
ghost use Rattle.act.specs.Draft.{Does, Ready, send_ballot, carried_by, timeout_by};

use certificate::Certificate;
use counters::{Counters, locks, timing, voting};
use memory::kept::{commit_row, keep, timeout_row, vote_row};
use memory::own;
use settings::View;
use wire::write::{put_timeout, put_vote};
use wire::{Carried, Kind, Timeout, Vote, length};

// The counters so far in a call, and how many bytes it has written.
#[derive(Clone, Copy)]
pub struct Draft {
    pub counters: Counters,
    pub at: usize,
}

// A vote or a commit is written, and kept in a row.
fn send_ballot(
    mem: &mut [u8],
    out: &mut [u8],
    d: Draft,
    kind: Kind,
    row: usize,
    vote: Vote,
) -> Draft
    requires { Ready d mem.old out.old vote_length × (row + row_size name_length ≤ memory_length) }
    ensures { Does (send_ballot (number kind) row vote.view.0 vote.name) d mem.old out.old result mem.new out.new }
{
    let me = own(mem);
    put_vote(out, d.at, kind.into(), me, vote);
    keep(mem, row, me as usize, &vote.name);
    Draft {
        at: d.at + length::VOTE,
        ..d
    }
}

// A vote is written, kept, and made the high vote.
pub fn send_vote(mem: &mut [u8], out: &mut [u8], d: Draft, view: View, name: [u8; 32]) -> Draft
    requires { Ready d mem.old out.old vote_length }
    ensures { Does (send_vote view.0 name) d mem.old out.old result mem.new out.new }
{
    let vote = Vote { view, name };
    let sent = send_ballot(mem, out, d, Kind::Vote, vote_row(view), vote);
    Draft {
        counters: voting(sent.counters, vote),
        ..sent
    }
}

pub fn send_commit(mem: &mut [u8], out: &mut [u8], d: Draft, view: View, name: [u8; 32]) -> Draft
    requires { Ready d mem.old out.old vote_length }
    ensures { Does (send_commit view.0 name) d mem.old out.old result mem.new out.new }
{
    send_ballot(
        mem,
        out,
        d,
        Kind::Commit,
        commit_row(view),
        Vote { view, name },
    )
}

// What a timeout carries, by its kind.
#[tactic(auto, unfolding(crate::specs::Draft::carried_by))]
fn carried(k: Certificate) -> Carried
    ensures { result ≡ carried_by k }
{
    let kind = if k.block {
        Kind::BlockCertificate
    } else {
        Kind::WeakCertificate
    };
    let name = k.name;
    Carried {
        kind: kind.into(),
        view: k.view,
        name,
        signers: k.signers,
    }
}

// Own timeout of a view: the high vote, and the higher of lock and best weak.
#[tactic(auto, unfolding(crate::specs::Draft::timeout_by))]
fn own_timeout(c: Counters, me: u16, view: View) -> Timeout
    ensures { result ≡ timeout_by c me view.0 }
{
    Timeout {
        sender: me,
        view,
        high: c.high,
        carried: carried(locks(c).highest()),
    }
}

// A timeout is written and kept, and the view is timed.
pub fn send_timeout(mem: &mut [u8], out: &mut [u8], d: Draft, view: View) -> Draft
    requires { Ready d mem.old out.old timeout_length }
    ensures { Does (send_timeout view.0) d mem.old out.old result mem.new out.new }
{
    let me = own(mem);
    put_timeout(out, d.at, own_timeout(d.counters, me, view));
    keep(
        mem,
        timeout_row(view),
        me as usize,
        &out[d.at..d.at + length::TIMEOUT],
    );
    Draft {
        counters: timing(d.counters, view),
        at: d.at + length::TIMEOUT,
    }
}
