// Windows of views, and entering a view.
ghost use Rattle.std.specs.Prelude.{◌≡◌, ◌+◌, ◌≤◌, ◌<◌, ◌^◌, length};
ghost use Rattle.settings.specs.Quorum.{last_view};
ghost use Rattle.memory.specs.Layout.{memory_length};
ghost use Rattle.memory.specs.Window.{lowest, highest, without_ballots, without_timeouts, incoming, entered};

use crate::kept::{clear_row, commit_row, timeout_row, vote_row};
use crate::{BALLOT_ROWS, TIMEOUT_ROWS};
use settings::View;
use wire::length;

// A window ends below the last view.
const LAST_KEPT: u64 = View::LAST.0 - 1;

// The first view of a window of votes and commits.
pub fn lowest(view: View) -> View
    ensures { result.0 ≡ lowest view.0 }
{
    View(view.0.saturating_sub(4).max(1))
}

// The last view of a window.
pub fn highest(view: View) -> View
    requires { view.0 ≤ last_view }
    ensures { result.0 ≡ highest view.0 }
{
    View((view.0 + 3).min(LAST_KEPT))
}

// How many views come into a window of so many rows.
fn incoming(rows: u64, old: View, new: View) -> u64
    requires { old.0 ≤ new.0 }
    ensures { result ≡ incoming rows old.0 new.0 }
{
    (new.0 - old.0).min(rows)
}

pub fn drop_ballots(mem: &mut [u8], from: View, k: u64)
    requires { (memory_length ≤ length mem.old) × (from.0 + k < 2 ^ 63) }
    ensures { mem.new ≡ without_ballots mem.old from.0 k }
{
    for i in 0..k {
        clear_row(mem, vote_row(View(from.0 + i)), 32);
        clear_row(mem, commit_row(View(from.0 + i)), 32);
    }
}

pub fn drop_timeouts(mem: &mut [u8], from: View, k: u64)
    requires { (memory_length ≤ length mem.old) × (from.0 + k < 2 ^ 63) }
    ensures { mem.new ≡ without_timeouts mem.old from.0 k }
{
    for i in 0..k {
        clear_row(mem, timeout_row(View(from.0 + i)), length::TIMEOUT);
    }
}

// Entering a view: what leaves the windows is dropped.
pub fn enter(mem: &mut [u8], old: View, new: View)
    requires { (memory_length ≤ length mem.old) × ((old.0 ≤ new.0) × (new.0 ≤ last_view)) }
    ensures { mem.new ≡ entered mem.old old.0 new.0 }
{
    let k = incoming(BALLOT_ROWS, old, new);
    let j = incoming(TIMEOUT_ROWS, old, new);
    drop_ballots(mem, View(new.0 + 4 - k), k);
    drop_timeouts(mem, View(new.0 + 4 - j), j);
}
