// Rule D over the lent store: what enough kept votes or commits decide is released, lowest view first, then smaller name, until nothing is left to release.
// Promises: `lowest_target` finds the pair of `lowest_pair`, and `release_all` leaves what `again` of protocol's specs/Rules.antt says, the bytes behind the
// written ones as they were. It asks that memory and counters pass refusal 2 and that a release of each held block has room.
// Rests on `memory`, `blocks`, `counters` and `act`.
#![tactic(auto)]

ghost use Rattle.std.specs.Prelude.{◌≡◌, true, ◌+◌, ◌*◌, ◌^◌, ◌<◌, ◌≤◌, length, take};
ghost use Rattle.settings.specs.Quorum.{largest, last_view, replicas};
ghost use Rattle.wire.specs.Fields.{release_length};
ghost use Rattle.blocks.specs.Store.{found_of};
ghost use Rattle.memory.specs.Layout.{memory_length, settings_of, block_count_of};
ghost use Rattle.memory.specs.Decided.{too_few};
ghost use Rattle.protocol.specs.Refusals.{store_length, regular};
ghost use Rattle.protocol.specs.Rules.{again};
ghost use Rattle.act.specs.Draft.{work_of, left, left_by, Ready};
ghost use Rattle.release.specs.Released.{Releases, Released};
ghost use Rattle.release.specs.Search.{standing, known_by, seen, first_place, leading, next_view, views_after, target_from, lowest_target, tries_of, quorums_of, at_next_view, passed, Follows};

use act::Draft;
use blocks::Block;
use counters::releasing;
use memory::decided::{Quorums, find_decided, too_few};
use memory::window::{highest, lowest};
use memory::{block_count, own, put_block_count, settings};
use settings::View;

// Where the search stands: at a view, above a name or at its first; how many views come after it, and how many of its names are still tried.
#[derive(Clone, Copy)]
struct Place {
    view: View,
    after: Option<[u8; 32]>,
    views: usize,
    tries: usize,
}

// The block to release, and the view of the votes or commits that decide it.
#[derive(Clone, Copy)]
pub struct Target {
    pub view: View,
    pub block: Block,
}

// One step of the search: it goes on at a place, or ends with a target, if there is one.
#[derive(Clone, Copy)]
enum Step {
    On(Place),
    Ends(Option<Target>),
}

// What decides a name in a view.
fn quorums(mem: &[u8], view: View) -> Quorums
    requires { memory_length ≤ length mem.now }
    ensures { result ≡ quorums_of mem.now view.0 }
{
    let s = settings(mem);
    Quorums {
        view,
        n: s.n() as usize,
        votes: s.fast_quorum(),
        commits: s.slow_quorum(),
    }
}

// How many names of a view are tried: it has at most n kept votes and n kept commits.
fn tries(mem: &[u8]) -> usize
    requires { memory_length ≤ length mem.now }
    ensures { result ≡ tries_of mem.now }
{
    let n = settings(mem).n() as usize;
    n + n + 1
}

// So few votes and commits are kept for the view that it decides nothing.
fn decides_nothing(mem: &[u8], view: View) -> bool
    requires { (memory_length ≤ length mem.now) × (replicas (settings_of mem.now) ≤ largest) }
    ensures { result ≡ too_few mem.now (quorums_of mem.now view.0) }
{
    too_few(mem, quorums(mem, view))
}

// How many views after the first one are searched, of so many at most: the last ones are left out where they decide nothing.
fn views_after(mem: &[u8], first: View, most: u64) -> u64
    requires { (memory_length ≤ length mem.now) × ((replicas (settings_of mem.now) ≤ largest) × (first.0 + most < 2 ^ 63)) }
    ensures { result ≡ views_after mem.now first.0 most }
{
    for k in (1..=most).rev() {
        if !decides_nothing(mem, View(first.0 + k)) {
            return k;
        }
    }
    0
}

fn first_place(mem: &[u8], view: View) -> Place
    requires { (memory_length ≤ length mem.now) × ((replicas (settings_of mem.now) ≤ largest) × ((1 ≤ view.0) × (view.0 ≤ last_view))) }
    ensures { result ≡ first_place view.0 mem.now }
{
    let low = lowest(view);
    Place {
        view: low,
        after: None,
        views: views_after(mem, low, highest(view).0 - low.0) as usize,
        tries: tries(mem),
    }
}

// The start of the view after a place's.
fn at_next_view(mem: &[u8], p: Place) -> Place
    requires { (memory_length ≤ length mem.now) × ((p.view.0 + 1 < 2 ^ 64) × (1 ≤ p.views)) }
    ensures { result ≡ at_next_view mem.now p }
{
    Place {
        view: View(p.view.0 + 1),
        after: None,
        views: p.views - 1,
        tries: tries(mem),
    }
}

// Views that decide nothing are passed over, so that the store is not asked for them.
fn pass_views(mem: &[u8], first: Place) -> Place
    requires { (memory_length ≤ length mem.now) × ((replicas (settings_of mem.now) ≤ largest) × (first.view.0 + first.views < 2 ^ 63)) }
    ensures { result ≡ passed mem.now first }
{
    let mut p = first;
    while 0 < p.views && decides_nothing(mem, p.view) {
        p = at_next_view(mem, p);
    }
    p
}

// No name of the view is left.
fn next_view(mem: &[u8], p: Place) -> Step
    requires { (memory_length ≤ length mem.now) × (p.view.0 + 1 < 2 ^ 64) }
    ensures { result ≡ next_view mem.now p }
{
    if 0 < p.views {
        return Step::On(at_next_view(mem, p));
    }
    Step::Ends(None)
}

// The held block of a name, if it leads to the tip.
fn leading(mem: &[u8], store: &[Block], tip: Block, name: [u8; 32]) -> Option<Block>
    requires { memory_length ≤ length mem.now }
    ensures { found_of result ≡ leading tip (take (block_count_of mem.now) store.now) name }
{
    let count = block_count(mem);
    let block = blocks::held(store, count, tip, name)?;
    blocks::descends(store, count, tip, block).then_some(block)
}

// One step of the search from a place on: the views without a decision are passed over, and the next name that is decided there is looked at.
fn step_from(mem: &[u8], store: &[Block], tip: Block, p: Place) -> Step
    requires { (memory_length ≤ length mem.now) × ((replicas (settings_of mem.now) ≤ largest) × (p.view.0 + p.views < 2 ^ 63)) }
    ensures { Follows p (seen tip mem.now store.now) result }
{
    let q = pass_views(mem, p);
    let found = find_decided(mem, quorums(mem, q.view), q.after);
    let Some(name) = found.name else {
        return next_view(mem, q);
    };
    if q.tries < 1 {
        return next_view(mem, q);
    }
    if let Some(block) = leading(mem, store, tip, name) {
        return Step::Ends(Some(Target {
            view: q.view,
            block,
        }));
    }
    // Where the view decides no other, its names are done.
    if found.only {
        return next_view(mem, q);
    }
    Step::On(Place {
        after: Some(name),
        tries: q.tries - 1,
        ..q
    })
}

// The search from a place on: a step for each view and each decided name that is passed over, at most n + 1 names of a view, since where f and c are 0 one commit decides.
fn target_from(mem: &[u8], store: &[Block], tip: Block, first: Place) -> Option<Target>
    requires { (memory_length ≤ length mem.now) × ((replicas (settings_of mem.now) ≤ largest) × (first.view.0 + first.views < 2 ^ 63)) }
    ensures { result ≡ target_from first (seen tip mem.now store.now) }
{
    let mut p = first;
    'search: loop {
        match step_from(mem, store, tip, p) {
            Step::On(next) => p = next,
            Step::Ends(target) => return target,
        }
    }
}

// What rule D releases next.
pub fn lowest_target(mem: &[u8], store: &[Block], view: View, tip: Block) -> Option<Target>
    requires { (memory_length ≤ length mem.now) × (regular (standing (known_by view tip) mem.now store.now) ≡ true) }
    ensures { result ≡ lowest_target (standing (known_by view tip) mem.now store.now) }
{
    target_from(mem, store, tip, first_place(mem, view))
}

// One release: the line down to the tip is written, and what does not descend from the block is dropped.
fn release_target(mem: &mut [u8], store: &mut [Block], out: &mut [u8], d: Draft, t: Target) -> Draft
    requires { Releases d t mem.old out.old store.old }
    ensures { Released d t mem.old out.old store.old result mem.new out.new store.new }
{
    let count = block_count(mem);
    let me = own(mem);
    let at = blocks::release(store, count, d.counters.tip, t.block, me, t.view, out, d.at);
    let rest = blocks::drop_others(store, count, t.block);
    put_block_count(mem, rest as u16);
    let counters = releasing(d.counters, t.block);
    Draft { counters, at }
}

// Rule D, again and again, until nothing is left to release. Each release takes a block out of the store, so that for k the number of held blocks is
// enough; where there is none, nothing is asked of the memory.
pub fn release_all(mem: &mut [u8], store: &mut [Block], out: &mut [u8], d: Draft, k: usize) -> Draft
    requires { (k ≤ store_length) × ((d.at ≤ length out.old) × (1 ≤ k → Ready d mem.old out.old (release_length * length (take (block_count_of mem.old) store.old)))) }
    ensures { left result mem.new out.new store.new
        ≡ left_by (again k (work_of d mem.old out.old store.old)) out.old }
{
    let mut draft = d;
    'turns: for _ in 0..k {
        let Some(target) = lowest_target(mem, store, draft.counters.view, draft.counters.tip) else {
            return draft;
        };
        draft = release_target(mem, store, out, draft, target);
    }
    draft
}
