// The lent memory of a replica: settings, own number, number of held blocks, leader list, entry certificate, and what is kept of each view.
// Promises: each function reads or leaves what its definition in specs/ says; it asks only that the place lies inside the memory, and for a leader that the list has an entry.
// Rests on `settings`, `codec`, `wire` and `certificate`.
#![tactic(auto)]

pub mod decided;
pub mod formed;
pub mod kept;
pub mod leaders;
pub mod window;

ghost use Rattle.std.specs.Prelude.{◌≡◌, ◌+◌, ◌≤◌, length};
ghost use Rattle.memory.specs.Layout.{settings_of, own_of, block_count_of, entry_length_of, with_block_count, with_entry, entry_place};

use codec::num::{put_u16, u16_at};
use codec::put;
use settings::{MOST_LEADERS, Settings};

// Where the leader list stands, and behind it the entry certificate.
pub const LEADERS_PLACE: usize = 16;

pub const ENTRY_PLACE: usize = LEADERS_PLACE + MOST_LEADERS;

// Votes and commits are kept for so many views, and timeouts for so many.
pub const BALLOT_ROWS: u64 = 8;

pub const TIMEOUT_ROWS: u64 = 4;

// The memory that a host lends has at least so many bytes.
pub const LENGTH: usize = kept::END;

pub fn settings(mem: &[u8]) -> Settings
    requires { entry_place ≤ length mem.now }
    ensures { result ≡ settings_of mem.now }
{
    Settings {
        f: u16_at(mem, 0),
        c: u16_at(mem, 2),
        k: u16_at(mem, 4),
    }
}

pub fn own(mem: &[u8]) -> u16
    requires { entry_place ≤ length mem.now }
    ensures { result ≡ own_of mem.now }
{
    u16_at(mem, 6)
}

pub fn block_count(mem: &[u8]) -> usize
    requires { entry_place ≤ length mem.now }
    ensures { result ≡ block_count_of mem.now }
{
    u16_at(mem, 8) as usize
}

pub fn entry_length(mem: &[u8]) -> usize
    requires { entry_place ≤ length mem.now }
    ensures { result ≡ entry_length_of mem.now }
{
    u16_at(mem, 10) as usize
}

pub fn put_block_count(mem: &mut [u8], k: u16)
    requires { entry_place ≤ length mem.old }
    ensures { mem.new ≡ with_block_count mem.old k }
{
    put_u16(mem, 8, k);
}

// The certificate by which the view was entered, as bytes.
pub fn put_entry(mem: &mut [u8], rec: &[u8])
    requires { (entry_place + length rec.now ≤ length mem.old) × (length rec.now ≤ 65535) }
    ensures { mem.new ≡ with_entry mem.old rec.now }
{
    put_u16(mem, 10, rec.len() as u16);
    put(mem, ENTRY_PLACE, rec);
}
