// The leader list that an opening was given, and the leader of a view by it.
ghost use Rattle.std.specs.Prelude.{◌≡◌, ◌≤◌, ◌<◌, length};
ghost use Rattle.settings.specs.Opening.{most_leaders};
ghost use Rattle.memory.specs.Layout.{entry_place, leader_count_of, with_leaders};
ghost use Rattle.memory.specs.Leaders.{Listed, by_list};

use crate::LEADERS_PLACE;
use codec::num::{put_u16, u16_at};
use codec::put;
use settings::View;

// How many entries the list has.
pub fn leader_count(mem: &[u8]) -> u64
    requires { entry_place ≤ length mem.now }
    ensures { result ≡ leader_count_of mem.now }
{
    u16_at(mem, 12) as u64
}

pub fn put_leaders(mem: &mut [u8], leaders: &[u8])
    requires { (entry_place ≤ length mem.old) × (length leaders.now ≤ most_leaders) }
    ensures { mem.new ≡ with_leaders mem.old leaders.now }
{
    put_u16(mem, 12, leaders.len() as u16);
    put(mem, LEADERS_PLACE, leaders);
}

// The leader of a view: the list begins again behind its last entry.
pub fn leader(mem: &[u8], view: View) -> u64
    requires { (entry_place ≤ length mem.now) × (Listed mem.now × (0 < view.0)) }
    ensures { result ≡ by_list mem.now view.0 }
{
    let i = (view.0 - 1) % leader_count(mem);
    mem[LEADERS_PLACE + i as usize] as u64
}
