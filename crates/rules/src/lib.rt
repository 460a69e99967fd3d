// The rules A, B and C after an event, each at one view, and their run: all A, all B, all C, views ascending, which is 01's loop
// (`settle_is_the_loop` of protocol). Promises: each leaves what the rule of `protocol` with its name does (`Does`), on any kept rows. It asks that
// memory passes refusal 2 and that the most its run can write has room. Rests on `act` and `memory`.
#![tactic(auto)]

pub mod phases;

ghost use Rattle.std.specs.Prelude.{◌≡◌, ◌+◌, ◌≤◌, ◌<◌, length};
ghost use Rattle.settings.specs.Quorum.{largest, last_view, replicas};
ghost use Rattle.wire.specs.Fields.{vote_length, block_certificate_length, timeout_length};
ghost use Rattle.memory.specs.Layout.{memory_length, entry_room, settings_of, own_of};
ghost use Rattle.memory.specs.Decided.{no_choice, choice_of, next_decided};
ghost use Rattle.memory.specs.Formed.{formed};
ghost use Rattle.protocol.specs.Events.{progress};
ghost use Rattle.protocol.specs.Rules.{rule_a, rule_b, rule_c};
ghost use Rattle.act.specs.Draft.{Does, Ready};
ghost use Rattle.rules.specs.Phases.{votes_wanted, forms_block};

use act::progress::act_on;
use act::{Draft, send_timeout};
use certificate::Certificate;
use counters::{adopting, locks};
use memory::decided::{Quorums, next_decided};
use memory::formed::form;
use memory::kept::{count_backers, kept_count, timeout_row, vote_row};
use memory::{own, settings};
use settings::View;
use wire::write::put_block_certificate;
use wire::{Vote, length};

// Rule A at a view: f+1 timeouts are kept for it, and own timeout is sent.
pub fn rule_a(mem: &mut [u8], out: &mut [u8], d: Draft, view: View) -> Draft
    requires { Ready d mem.old out.old timeout_length }
    ensures { Does (rule_a view.0) d mem.old out.old result mem.new out.new }
{
    if view < d.counters.view || view <= d.counters.timed {
        return d;
    }
    let s = settings(mem);
    if kept_count(mem, timeout_row(view), s.n()) <= s.f as u64 {
        return d;
    }
    send_timeout(mem, out, d, view)
}

// The timeout certificate of what is kept for a view is formed, and does what an accepted one does.
fn form_timeouts(mem: &mut [u8], out: &mut [u8], d: Draft, view: View) -> Draft
    requires { Ready d mem.old out.old entry_room × ((d.counters.view.0 ≤ view.0) × (view.0 < last_view)) }
    ensures { Does (progress (formed mem.old view.0 (replicas (settings_of mem.old)) (own_of mem.old))) d mem.old out.old result mem.new out.new }
{
    let n = settings(mem).n() as usize;
    let to = form(mem, view, n, own(mem), out, d.at);
    act_on(mem, out, d, to - d.at)
}

// Rule B at a view: enough timeouts are kept for it.
pub fn rule_b(mem: &mut [u8], out: &mut [u8], d: Draft, view: View) -> Draft
    requires { Ready d mem.old out.old entry_room × (view.0 < last_view) }
    ensures { Does (rule_b view.0) d mem.old out.old result mem.new out.new }
{
    if view < d.counters.view {
        return d;
    }
    let s = settings(mem);
    if kept_count(mem, timeout_row(view), s.n()) < s.timeout_quorum() {
        return d;
    }
    form_timeouts(mem, out, d, view)
}

// The smallest name of a view for which a block quorum of votes is kept, if there is one. More commits than there are replicas are asked for, so
// that only votes decide.
fn smallest_voted(mem: &[u8], view: View) -> Option<[u8; 32]>
    requires { (memory_length ≤ length mem.now) × (replicas (settings_of mem.now) ≤ largest) }
    ensures { choice_of result ≡ next_decided mem.now (votes_wanted mem.now view.0) no_choice }
{
    let s = settings(mem);
    let n = s.n();
    let wanted = Quorums {
        view,
        n: n as usize,
        votes: s.block_quorum(),
        commits: n + 1,
    };
    next_decided(mem, wanted, None)
}

// The block certificate of a name is formed of the kept votes for it, and does what an accepted one does.
fn form_block(mem: &mut [u8], out: &mut [u8], d: Draft, view: View, name: [u8; 32]) -> Draft
    requires { Ready d mem.old out.old (block_certificate_length + vote_length) × (view.0 < last_view) }
    ensures { Does (forms_block view.0 name) d mem.old out.old result mem.new out.new }
{
    let n = settings(mem).n() as usize;
    let signers = count_backers(mem, vote_row(view), name, n).signers;
    if view < d.counters.view {
        let k = Certificate {
            block: true,
            view,
            name,
            signers,
        };
        return Draft {
            counters: adopting(d.counters, k),
            ..d
        };
    }
    let vote = Vote { view, name };
    put_block_certificate(out, d.at, own(mem), vote, signers);
    act_on(mem, out, d, length::BLOCK_CERTIFICATE)
}

// A name that enough kept votes back, if its certificate outranks the lock.
fn certify(mem: &mut [u8], out: &mut [u8], d: Draft, view: View) -> Draft
    requires { Ready d mem.old out.old (block_certificate_length + vote_length) × (view.0 < last_view) }
    ensures { Does (rule_c view.0) d mem.old out.old result mem.new out.new }
{
    let Some(name) = smallest_voted(mem, view) else {
        return d;
    };
    let lock = locks(d.counters).lock;
    let k = Certificate {
        block: true,
        view,
        name,
        signers: 0,
    };
    if !k.outranks(lock) {
        return d;
    }
    form_block(mem, out, d, view, name)
}

// Rule C at a view: enough votes are kept for a name, and its certificate outranks the lock. Below the lock's view none does.
pub fn rule_c(mem: &mut [u8], out: &mut [u8], d: Draft, view: View) -> Draft
    requires { Ready d mem.old out.old (block_certificate_length + vote_length) × (view.0 < last_view) }
    ensures { Does (rule_c view.0) d mem.old out.old result mem.new out.new }
{
    if view < d.counters.lock.view {
        return d;
    }
    certify(mem, out, d, view)
}
