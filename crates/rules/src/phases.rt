// The run of the rules: all A, then all B, then all C, views ascending. No later rule lets an earlier one apply again.
ghost use Rattle.std.specs.Prelude.{◌≡◌, suc, ◌+◌, ◌-◌, ◌*◌, ◌≤◌, length};
ghost use Rattle.settings.specs.Quorum.{largest, last_view, replicas};
ghost use Rattle.wire.specs.Fields.{vote_length, block_certificate_length, timeout_length};
ghost use Rattle.memory.specs.Layout.{memory_length, entry_room, settings_of, ballot_rows, timeout_rows};
ghost use Rattle.act.specs.Draft.{Does, Ready};
ghost use Rattle.memory.specs.Window.{highest};
ghost use Rattle.protocol.specs.Rules.{each};
ghost use Rattle.rules.specs.Phases.{Rule, Callable, Runs, phase_a, phase_b, phase_c, phases, echoable, few_timeouts, certifiable, few_votes};

use crate::{rule_a, rule_b, rule_c};
use act::Draft;
use counters::Signed;
use memory::decided::standing_of;
use memory::kept::{kept_count, timeout_row, vote_row};
use memory::settings;
use memory::window::{highest, lowest};
use settings::{Settings, View};

// A rule is run at each view from the first one on, views ascending.
fn at_each<F: Fn(&mut [u8], &mut [u8], Draft, View) -> Draft>(
    mem: &mut [u8],
    out: &mut [u8],
    d: Draft,
    first: View,
    rule: F,
) -> Draft
    ghost law: { Rule }
    requires ready { Ready d mem.old out.old (law.room * (suc (highest d.counters.view.0) - first.0)) }
    requires first_view { first.0 ≤ d.counters.view.0 }
    requires callable { Callable (λ m o e v. F.pre rule m o e v) law.room }
    requires runs { Runs (λ m o e v r n p. F.post rule m o e v r n p) law.does }
    ensures { Does (each law.does first.0 (suc (highest d.counters.view.0) - first.0)) d mem.old out.old result mem.new out.new }
{
    let end = highest(d.counters.view).0 + 1;
    let mut next = d;
    for view in first.0..end {
        next = rule(mem, out, next, View(view));
    }
    next
}

fn run_a(mem: &mut [u8], out: &mut [u8], d: Draft) -> Draft
    requires { Ready d mem.old out.old (timeout_length * timeout_rows) }
    ensures { Does phase_a d mem.old out.old result mem.new out.new }
{
    at_each(mem, out, d, d.counters.view, rule_a)
}

fn run_b(mem: &mut [u8], out: &mut [u8], d: Draft) -> Draft
    requires { Ready d mem.old out.old (entry_room * timeout_rows) }
    ensures { Does phase_b d mem.old out.old result mem.new out.new }
{
    at_each(mem, out, d, d.counters.view, rule_b)
}

fn run_c(mem: &mut [u8], out: &mut [u8], d: Draft) -> Draft
    requires { Ready d mem.old out.old ((block_certificate_length + vote_length) * ballot_rows) × (1 ≤ d.counters.view.0) }
    ensures { Does phase_c d mem.old out.old result mem.new out.new }
{
    at_each(mem, out, d, lowest(d.counters.view), rule_c)
}

// Rules A, B and C until none of them applies.
fn run_all(mem: &mut [u8], out: &mut [u8], d: Draft) -> Draft
    requires { Ready d mem.old out.old (timeout_length * timeout_rows + (entry_room * timeout_rows + (block_certificate_length + vote_length) * ballot_rows)) }
    ensures { Does phases d mem.old out.old result mem.new out.new }
{
    let a = run_a(mem, out, d);
    let b = run_b(mem, out, a);
    run_c(mem, out, b)
}

// So many timeouts are kept for a view that rule A or B may apply. Once own timeout is sent only B does, which takes more.
fn echoable(mem: &[u8], s: Settings, view: View, timed: View) -> bool
    requires { (memory_length ≤ length mem.now) × (replicas s ≤ largest) }
    ensures { result ≡ echoable mem.now s timed.0 view.0 }
{
    let kept = kept_count(mem, timeout_row(view), s.n());
    if timed < view {
        return (s.f as u64) < kept;
    }
    s.timeout_quorum() <= kept
}

// For none of the views from here on so many timeouts are kept that rule A or B applies.
fn few_timeouts(mem: &[u8], view: View, timed: View) -> bool
    requires { (memory_length ≤ length mem.now) × ((replicas (settings_of mem.now) ≤ largest) × ((1 ≤ view.0) × (view.0 ≤ last_view))) }
    ensures { result ≡ few_timeouts mem.now view.0 timed.0 }
{
    let s = settings(mem);
    let first = view.0;
    let end = highest(view).0 + 1;
    for at in first..end {
        if echoable(mem, s, View(at), timed) {
            return false;
        }
    }
    true
}

// So many votes are kept for a view that rule C may apply: at the lock's own view, so many for another name than the lock's.
fn certifiable(mem: &[u8], s: Settings, view: View, lock: Signed) -> bool
    requires { (memory_length ≤ length mem.now) × (replicas s ≤ largest) }
    ensures { result ≡ certifiable mem.now s lock view.0 }
{
    if view < lock.view {
        return false;
    }
    if view == lock.view {
        let w = standing_of(
            mem,
            vote_row(view),
            s.n() as usize,
            s.block_quorum(),
            lock.name,
        );
        return !w.alone;
    }
    s.block_quorum() <= kept_count(mem, vote_row(view), s.n())
}

// For none of the views from the lock's on enough votes are kept for rule C.
fn few_votes(mem: &[u8], view: View, lock: Signed) -> bool
    requires { (memory_length ≤ length mem.now) × ((replicas (settings_of mem.now) ≤ largest) × ((1 ≤ view.0) × (view.0 ≤ last_view))) }
    ensures { result ≡ few_votes mem.now view.0 lock }
{
    let s = settings(mem);
    let first = lowest(view).0;
    let end = highest(view).0 + 1;
    for at in first..end {
        if certifiable(mem, s, View(at), lock) {
            return false;
        }
    }
    true
}

// Rules A, B and C. Mostly none of them applies, which the counts of kept timeouts and votes tell before anything is moved.
pub fn run(mem: &mut [u8], out: &mut [u8], d: Draft) -> Draft
    requires { Ready d mem.old out.old (timeout_length * timeout_rows + (entry_room * timeout_rows + (block_certificate_length + vote_length) * ballot_rows)) }
    ensures { Does phases d mem.old out.old result mem.new out.new }
{
    let c = d.counters;
    if few_timeouts(mem, c.view, c.timed) && few_votes(mem, c.view, c.lock) {
        return d;
    }
    run_all(mem, out, d)
}
