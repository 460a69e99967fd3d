// The place "regions": lengths, and the rules that memory and counters keep.
ghost use Rattle.std.specs.Prelude.{◌≡◌, ◌&&◌, List, [], ◌+◌, ◌*◌, ◌≤◌, leb, ltb, length};
ghost use Rattle.settings.specs.Quorum.{largest, replicas};
ghost use Rattle.settings.specs.Opening.{most_leaders};
ghost use Rattle.settings.specs.Refusal.{refused};
ghost use Rattle.wire.specs.Fields.{timeouts_head};
ghost use Rattle.blocks.specs.declared.Block.{Block};
ghost use Rattle.memory.specs.Layout.{memory_length, entry_of};
ghost use Rattle.protocol.specs.Refusals.{regular, region_rules};
ghost use Rattle.refusals.specs.Number.{first_of};
ghost use Rattle.refusals.specs.Early.{lent, certificate_sized};

use blocks::STORE_LENGTH;
use codec::num::u16_at;
use counters::Counters;
use memory::leaders::leader_count;
use memory::{ENTRY_PLACE, block_count, entry_length, own, settings};
use settings::{MOST_LEADERS, Refusal, Settings, View};
use wire::read::kind_at;
use wire::{Kind, length};

// The output region has at least so many bytes, and no call writes more.
pub const OUTPUT_LENGTH: usize = 32768;

// A progress certificate that has its length.
#[tactic(auto, unfolding(crate::specs::Early::certificate_sized))]
fn certificate_sized(rec: &[u8], n: u64) -> bool
    requires { timeouts_head ≤ length rec.now }
    ensures { result ≡ certificate_sized n rec.now }
{
    match kind_at(rec, 4) {
        Some(Kind::BlockCertificate) => rec.len() == length::BLOCK_CERTIFICATE,
        Some(Kind::TimeoutCertificate) => {
            let count = u16_at(rec, 16) as usize;
            count as u64 <= n && rec.len() == length::TIMEOUTS_HEAD + length::TIMEOUT * count
        }
        _ => false,
    }
}

// The entry certificate has its length. No certificate has less than 24 bytes, or more than all replicas' timeouts.
#[tactic(auto, using(crate::proofs::Regular::sized_short, crate::proofs::Regular::sized_long), unfolding(memory::specs::Layout::entry_of))]
fn entry_regular(mem: &[u8], n: u64) -> bool
    requires { (memory_length ≤ length mem.now) × (n ≤ largest) }
    ensures { result ≡ certificate_sized n (entry_of mem.now) }
{
    let len = entry_length(mem);
    length::TIMEOUTS_HEAD <= len
        && len <= length::LONGEST_CERTIFICATE
        && certificate_sized(&mem[ENTRY_PLACE..ENTRY_PLACE + len], n)
}

// Settings that opening takes, and an own number of the cluster.
fn settings_regular(s: Settings, own: u64) -> bool
    ensures { result ≡ (leb (replicas s) largest && ltb own (replicas s)) }
{
    s.n() <= Settings::LARGEST && own < s.n()
}

// A leader list of 1 to 64 entries, whatever they are.
fn leaders_regular(count: u64) -> bool
    ensures { result ≡ (leb 1 count && leb count most_leaders) }
{
    1 <= count && count <= MOST_LEADERS as u64
}

#[tactic(auto, unfolding(protocol::specs::Refusals::regular, crate::specs::Early::certificate_sized))]
fn regular(c: Counters, mem: &[u8]) -> bool
    requires { memory_length ≤ length mem.now }
    ensures { result ≡ regular (lent c mem.now []) }
{
    let s = settings(mem);
    settings_regular(s, own(mem) as u64)
        && 1 <= c.view.0
        && c.view <= View::LAST
        && block_count(mem) <= STORE_LENGTH
        && entry_regular(mem, s.n())
        && leaders_regular(leader_count(mem))
}

// 2, where the regions don't pass.
#[tactic(auto, unfolding(protocol::specs::Refusals::region_rules, protocol::specs::Refusals::regular, settings::specs::Refusal::refused, settings::specs::Refusal::number, crate::specs::Number::first_of))]
pub fn regions(c: Counters, mem: &[u8], entries: usize, room: usize) -> Result<(), Refusal>
    ensures { (s : List Block) → length s ≡ entries → refused result ≡ first_of (region_rules (lent c mem.now s) room) }
{
    if mem.len() < memory::LENGTH
        || entries < STORE_LENGTH
        || room < OUTPUT_LENGTH
        || !regular(c, mem)
    {
        return Err(Refusal::Regions);
    }
    Ok(())
}
