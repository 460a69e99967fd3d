// The names of a view that enough votes or commits decide, in the order of names.
ghost use Rattle.std.specs.Prelude.{◌≡◌, ◌+◌, ◌≤◌, ◌<◌, leb, length};
ghost use Rattle.settings.specs.Quorum.{largest};
ghost use Rattle.codec.specs.Names.{name_length};
ghost use Rattle.memory.specs.Layout.{memory_length, row_size};
ghost use Rattle.memory.specs.Kept.{kept_count};
ghost use Rattle.memory.specs.Decided.{choice_of, too_few, above, improves, backed, standing, consider, choose, next_decided, first_of, likely, decision, find_decided};

use crate::kept::{commit_row, count_backers, entry_at, has, kept_count, vote_row};
use codec::name::less;
use codec::name_at;
use settings::View;

// What decides a name in a view: so many votes, or so many commits, of the first n replicas.
#[derive(Clone, Copy)]
pub struct Quorums {
    pub view: View,
    pub n: usize,
    pub votes: u64,
    pub commits: u64,
}

// How a name stands in a row: whether a quorum backs it, and whether too few entries are for other names to make one.
#[derive(Clone, Copy)]
pub struct Standing {
    pub backed: bool,
    pub alone: bool,
}

// The next decided name, if there is one, and whether it is clear that no other name of the view is decided.
#[derive(Clone, Copy)]
pub struct Finding {
    pub name: Option<[u8; 32]>,
    pub only: bool,
}

// Above the bound, if there is one.
#[tactic(auto, unfolding(crate::specs::Decided::above))]
fn above(after: Option<[u8; 32]>, name: [u8; 32]) -> bool
    ensures { result ≡ above (choice_of after) name }
{
    match after {
        Some(bound) => less(bound, name),
        None => true,
    }
}

// Above the bound, and below the best so far.
#[tactic(auto, unfolding(crate::specs::Decided::improves))]
fn improves(after: Option<[u8; 32]>, best: Option<[u8; 32]>, name: [u8; 32]) -> bool
    ensures { result ≡ improves (choice_of after) (choice_of best) name }
{
    above(after, name)
        && match best {
            Some(other) => less(name, other),
            None => true,
        }
}

// Enough of the first n replicas back a name in a row.
fn backed(mem: &[u8], row: usize, n: usize, quorum: u64, name: [u8; 32]) -> bool
    requires { (memory_length ≤ length mem.now) × ((row + row_size name_length ≤ memory_length) × (n ≤ largest)) }
    ensures { result ≡ backed mem.now row n quorum name }
{
    let t = count_backers(mem, row, name, n);
    quorum <= t.count
}

// Replica i's entry in a row, if it has one that improves and is backed.
fn consider(
    mem: &[u8],
    row: usize,
    n: usize,
    quorum: u64,
    after: Option<[u8; 32]>,
    best: Option<[u8; 32]>,
    i: usize,
) -> Option<[u8; 32]>
    requires { (memory_length ≤ length mem.now) × ((row + row_size name_length ≤ memory_length) × ((n ≤ largest) × (i < largest))) }
    ensures { choice_of result ≡ consider mem.now row (backed mem.now row n quorum) (choice_of after) i (choice_of best) }
{
    if !has(mem, row, i as u64) {
        return best;
    }
    let name = name_at(mem, entry_at(row, 32, i));
    if improves(after, best, name) && backed(mem, row, n, quorum, name) {
        return Some(name);
    }
    best
}

// So many replicas have an entry behind the first i that these alone could still be a quorum.
fn more_to_see(mem: &[u8], row: usize, n: usize, quorum: u64, i: usize) -> bool
    requires { (memory_length ≤ length mem.now) × ((row + row_size name_length ≤ memory_length) × ((n ≤ largest) × (i ≤ n))) }
    ensures { result ≡ leb (quorum + kept_count mem.now row i) (kept_count mem.now row n) }
{
    let seen = kept_count(mem, row, i as u64);
    let all = kept_count(mem, row, n as u64);
    seen <= all && quorum <= all - seen
}

// A name that a quorum backs stands among the first entries, so the search ends where those left over are too few for a quorum.
fn choose(
    mem: &[u8],
    row: usize,
    n: usize,
    quorum: u64,
    after: Option<[u8; 32]>,
    first: Option<[u8; 32]>,
) -> Option<[u8; 32]>
    requires { (memory_length ≤ length mem.now) × ((row + row_size name_length ≤ memory_length) × (n ≤ largest)) }
    ensures { choice_of result ≡ choose mem.now row (backed mem.now row n quorum) (choice_of after) (choice_of first) n }
{
    let mut best = first;
    for i in 0..n {
        if !more_to_see(mem, row, n, quorum, i) {
            return best;
        }
        best = consider(mem, row, n, quorum, after, best, i);
    }
    best
}

// So few replicas have a vote, and so few a commit, that no name can be decided.
#[tactic(auto, unfolding(crate::specs::Decided::too_few))]
pub fn too_few(mem: &[u8], q: Quorums) -> bool
    requires { (memory_length ≤ length mem.now) × (q.n ≤ largest) }
    ensures { result ≡ too_few mem.now q }
{
    kept_count(mem, vote_row(q.view), q.n as u64) < q.votes
        && kept_count(mem, commit_row(q.view), q.n as u64) < q.commits
}

// The least decided name above a bound. A view with few entries is passed over at once; each row is searched for its own quorum, since a name with
// enough commits has an entry among the commits.
pub fn next_decided(mem: &[u8], q: Quorums, after: Option<[u8; 32]>) -> Option<[u8; 32]>
    requires { (memory_length ≤ length mem.now) × ((q.n ≤ largest) × ((1 ≤ q.votes) × (1 ≤ q.commits))) }
    ensures { choice_of result ≡ next_decided mem.now q (choice_of after) }
{
    if too_few(mem, q) {
        return None;
    }
    let voted = choose(mem, vote_row(q.view), q.n, q.votes, after, None);
    choose(mem, commit_row(q.view), q.n, q.commits, after, voted)
}

// A replica has one entry in a row, so those that don't back the name are for others.
pub fn standing_of(mem: &[u8], row: usize, n: usize, quorum: u64, name: [u8; 32]) -> Standing
    requires { (memory_length ≤ length mem.now) × ((row + row_size name_length ≤ memory_length) × (n ≤ largest)) }
    ensures { result ≡ standing mem.now row n quorum name }
{
    let t = count_backers(mem, row, name, n);
    let others = kept_count(mem, row, n as u64) - t.count;
    Standing {
        backed: quorum <= t.count,
        alone: others < quorum,
    }
}

// The first entry of a row, if there is one.
fn first_name(mem: &[u8], row: usize, n: usize) -> Option<[u8; 32]>
    requires { (memory_length ≤ length mem.now) × ((row + row_size name_length ≤ memory_length) × (n ≤ largest)) }
    ensures { (choice_of result).name ≡ first_of mem.now row 0 n }
{
    for i in 0..n {
        if has(mem, row, i as u64) {
            return Some(name_at(mem, entry_at(row, 32, i)));
        }
    }
    None
}

// The name that is counted: the first kept vote, or the first kept commit where the votes are too few. Any other would do, and mostly be in vain.
fn likely(mem: &[u8], q: Quorums) -> [u8; 32]
    requires { (memory_length ≤ length mem.now) × (q.n ≤ largest) }
    ensures { result ≡ likely mem.now q }
{
    let row = if kept_count(mem, vote_row(q.view), q.n as u64) < q.votes {
        commit_row(q.view)
    } else {
        vote_row(q.view)
    };
    first_name(mem, row, q.n).unwrap_or([0u8; 32])
}

// As `next_decided`. Mostly a view has entries for one name alone: that is counted once, and nothing else is looked at.
pub fn find_decided(mem: &[u8], q: Quorums, after: Option<[u8; 32]>) -> Finding
    requires { (memory_length ≤ length mem.now) × ((q.n ≤ largest) × ((1 ≤ q.votes) × (1 ≤ q.commits))) }
    ensures { decision (choice_of result.name) result.only ≡ find_decided mem.now q (choice_of after) }
{
    let name = likely(mem, q);
    let v = standing_of(mem, vote_row(q.view), q.n, q.votes, name);
    let c = standing_of(mem, commit_row(q.view), q.n, q.commits, name);
    if v.alone && c.alone {
        let decided = (v.backed || c.backed) && above(after, name);
        return Finding {
            name: decided.then_some(name),
            only: true,
        };
    }
    Finding {
        name: next_decided(mem, q, after),
        only: false,
    }
}
