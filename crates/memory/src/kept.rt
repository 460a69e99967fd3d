// Rows of kept votes, commits and timeouts: one set of functions for any row and width.
ghost use Rattle.std.specs.Prelude.{◌≡◌, ◌+◌, ◌*◌, ◌≤◌, ◌<◌, ◌^◌, length};
ghost use Rattle.settings.specs.Quorum.{largest};
ghost use Rattle.codec.specs.Bytes.{patch};
ghost use Rattle.codec.specs.Names.{name_length};
ghost use Rattle.memory.specs.Layout.{row_size, vote_row, commit_row, timeout_row};
ghost use Rattle.memory.specs.Kept.{entry_at, mask, has, kept_count, keep, cleared, gathered, backs, tallied, tally};

use crate::{BALLOT_ROWS, ENTRY_PLACE, TIMEOUT_ROWS};
use certificate::safe::signs;
use certificate::{Tally, signer_count};
use codec::name::is_at;
use codec::num::{put_u64, u64_at};
use codec::{clear, put};
use settings::{Settings, View};
use wire::length;

const LARGEST: usize = Settings::LARGEST as usize;

const NAME_ROW: usize = 8 + 32 * LARGEST;

const TIMEOUT_ROW: usize = 8 + length::TIMEOUT * LARGEST;

const VOTES: usize = ENTRY_PLACE + length::LONGEST_CERTIFICATE;

const COMMITS: usize = VOTES + NAME_ROW * BALLOT_ROWS as usize;

const TIMEOUTS: usize = COMMITS + NAME_ROW * BALLOT_ROWS as usize;

// Where the last row ends.
pub const END: usize = TIMEOUTS + TIMEOUT_ROW * TIMEOUT_ROWS as usize;

pub fn vote_row(view: View) -> usize
    ensures { result ≡ vote_row view.0 }
{
    VOTES + NAME_ROW * (view.0 % BALLOT_ROWS) as usize
}

pub fn commit_row(view: View) -> usize
    ensures { result ≡ commit_row view.0 }
{
    COMMITS + NAME_ROW * (view.0 % BALLOT_ROWS) as usize
}

pub fn timeout_row(view: View) -> usize
    ensures { result ≡ timeout_row view.0 }
{
    TIMEOUTS + TIMEOUT_ROW * (view.0 % TIMEOUT_ROWS) as usize
}

pub fn mask(mem: &[u8], row: usize) -> u64
    requires { row + 8 ≤ length mem.now }
    ensures { result ≡ mask mem.now row }
{
    u64_at(mem, row)
}

pub fn has(mem: &[u8], row: usize, i: u64) -> bool
    requires { (row + 8 ≤ length mem.now) × (i < 64) }
    ensures { result ≡ has mem.now row i }
{
    signs(mask(mem, row), i)
}

// How many of the first n replicas have an entry.
pub fn kept_count(mem: &[u8], row: usize, n: u64) -> u64
    requires { (row + 8 ≤ length mem.now) × (n < 64) }
    ensures { result ≡ kept_count mem.now row n }
{
    signer_count(mask(mem, row) % (1u64 << n))
}

// Where replica i's entry stands.
pub fn entry_at(row: usize, width: usize, i: usize) -> usize
    requires { (row ≤ 65535) × ((width ≤ 65535) × (i < largest)) }
    ensures { result ≡ entry_at row width i }
{
    row + (8 + width * i)
}

// Replica i's entry is kept, if it has none yet.
pub fn keep(mem: &mut [u8], row: usize, i: usize, e: &[u8])
    requires { (row ≤ 65535) × ((length e.now ≤ 65535) × ((i < largest) × (row + row_size (length e.now) ≤ length mem.old))) }
    ensures { mem.new ≡ keep mem.old row (length e.now) i e.now }
{
    if has(mem, row, i as u64) {
        return;
    }
    let given = mask(mem, row);
    put(mem, entry_at(row, e.len(), i), e);
    put_u64(mem, row, given + (1u64 << i));
}

pub fn clear_row(mem: &mut [u8], row: usize, width: usize)
    requires { (width ≤ 65535) × (row + row_size width ≤ length mem.old) }
    ensures { mem.new ≡ cleared mem.old row width }
{
    clear(mem, row, 8 + width * LARGEST);
}

#[tactic(auto, unfolding(crate::specs::Kept::backs, crate::specs::Kept::kept))]
fn backs(mem: &[u8], row: usize, name: [u8; 32], i: usize) -> bool
    requires { (row ≤ 65535) × ((i < largest) × (row + row_size name_length ≤ length mem.now)) }
    ensures { result ≡ backs mem.now row name i }
{
    has(mem, row, i as u64) && is_at(mem, entry_at(row, 32, i), name)
}

fn tallied(mem: &[u8], row: usize, name: [u8; 32], i: usize, c: Tally) -> Tally
    requires { (row ≤ 65535) × ((i < largest) × ((row + row_size name_length ≤ length mem.now) × ((c.count ≤ i) × (c.signers < 2 ^ i)))) }
    ensures { result ≡ tallied mem.now row name i c }
{
    if backs(mem, row, name, i) {
        return Tally {
            count: c.count + 1,
            signers: c.signers + (1u64 << i),
        };
    }
    c
}

// How many of the first n replicas back a name, and which.
pub fn count_backers(mem: &[u8], row: usize, name: [u8; 32], n: usize) -> Tally
    requires { (row ≤ 65535) × ((n ≤ largest) × (row + row_size name_length ≤ length mem.now)) }
    ensures { result ≡ tally mem.now row name n }
{
    let mut c = Tally {
        count: 0,
        signers: 0,
    };
    for i in 0..n {
        c = tallied(mem, row, name, i, c);
    }
    c
}

// The entries of the first n replicas, one after another, into a region; the place after them.
pub fn gather(mem: &[u8], row: usize, width: usize, n: usize, out: &mut [u8], at: usize) -> usize
    requires { (row ≤ 65535) × ((width ≤ 65535) × ((n ≤ largest) × ((row + row_size width ≤ length mem.now) × (at + width * n ≤ length out.old)))) }
    ensures { (result ≡ at + length (gathered mem.now row width 0 n)) × (out.new ≡ patch out.old at (gathered mem.now row width 0 n)) }
{
    let mut to = at;
    for i in 0..n {
        to = gather_one(mem, row, width, i, out, to);
    }
    to
}

fn gather_one(mem: &[u8], row: usize, width: usize, i: usize, out: &mut [u8], at: usize) -> usize
    requires { (row ≤ 65535) × ((width ≤ 65535) × ((i < largest) × ((row + row_size width ≤ length mem.now) × (at + width ≤ length out.old)))) }
    ensures { (result ≡ at + length (gathered mem.now row width i 1)) × (out.new ≡ patch out.old at (gathered mem.now row width i 1)) }
{
    if has(mem, row, i as u64) {
        let from = entry_at(row, width, i);
        put(out, at, &mem[from..from + width]);
        return at + width;
    }
    at
}
