// A record that was accepted, by its kind.
ghost use Rattle.std.specs.Prelude.{◌≡◌, ◌+◌, ◌≤◌, ◌<◌, length};
ghost use Rattle.settings.specs.Quorum.{largest, replicas};
ghost use Rattle.codec.specs.Names.{name_length};
ghost use Rattle.wire.specs.Fields.{sender_of, view_of, name_of, progress_of, timeout_length, header_length, vote_length, block_length};
ghost use Rattle.wire.specs.Content.{content};
ghost use Rattle.memory.specs.Layout.{memory_length, entry_room, row_size, settings_of, block_count_of, timeout_row};
ghost use Rattle.memory.specs.Kept.{keep};
ghost use Rattle.protocol.specs.Refusals.{store_length};
ghost use Rattle.protocol.specs.Events.{proposition_of, on_record};
ghost use Rattle.act.specs.Draft.{Ready};
ghost use Rattle.act.specs.Progress.{IsProgress};
ghost use Rattle.event.specs.Event.{Gives, HeldIs, HasRoom, placed_for, counted_in, Asked, Taken, proposed_block, said_block};

use crate::{Event, block_of, no_block, proposition, take_place};
use act::Draft;
use act::progress::progress;
use codec::num::{u16_at, u64_at};
use memory::kept::{commit_row, keep, timeout_row, vote_row};
use settings::View;
use wire::read::kind_at;
use wire::{Kind, length};

// The name of a vote or of a commit, in its row.
fn keep_ballot(mem: &mut [u8], row: usize, rec: &[u8])
    requires { ((row ≤ 65535) × (row + row_size name_length ≤ length mem.old)) × ((length rec.now ≡ vote_length) × (sender_of rec.now < largest)) }
    ensures { mem.new ≡ keep mem.old row name_length (sender_of rec.now) (name_of rec.now) }
{
    let name = &rec[16..length::VOTE];
    keep(mem, row, u16_at(rec, 6) as usize, name);
}

fn keep_timeout(mem: &mut [u8], rec: &[u8])
    requires { (memory_length ≤ length mem.old) × ((length rec.now ≡ timeout_length) × (sender_of rec.now < largest)) }
    ensures { mem.new ≡ keep mem.old (timeout_row (view_of rec.now)) timeout_length (sender_of rec.now) rec.now }
{
    let row = timeout_row(View(u64_at(rec, 8)));
    keep(mem, row, u16_at(rec, 6) as usize, rec);
}

fn on_proposal(mem: &mut [u8], out: &mut [u8], d: Draft, rec: &[u8], held: bool) -> Event
    requires { Ready d mem.old out.old (entry_room + vote_length) × (IsProgress (replicas (settings_of mem.old)) (progress_of rec.now) × HasRoom mem.old held) }
    ensures { Gives (proposition_of (view_of rec.now) (proposed_block rec.now) (progress_of rec.now)) (HeldIs (name_of rec.now) held) d mem.old out.old result mem.new out.new }
{
    let view = View(u64_at(rec, 8));
    let block = block_of(wire::read::proposed(rec));
    proposition(
        mem,
        out,
        d,
        view,
        block,
        &rec[length::PROPOSAL_HEAD..],
        held,
    )
}

fn on_block(mem: &mut [u8], d: Draft, rec: &[u8], held: bool) -> Event
    requires { (memory_length ≤ length mem.old) × ((block_count_of mem.old ≤ store_length) × (block_length ≤ length rec.now)) }
    ensures { (result.draft ≡ d) × ((result.placed ≡ placed_for mem.old (said_block rec.now) held) × (mem.new ≡ counted_in mem.old held)) }
{
    let block = block_of(wire::read::block(rec));
    let placed = take_place(mem, block, held);
    Event { draft: d, placed }
}

pub fn on_record(mem: &mut [u8], out: &mut [u8], d: Draft, rec: &[u8], held: bool) -> Event
    requires { Ready d mem.old out.old (entry_room + vote_length) × ((header_length ≤ length rec.now) × Taken mem.old rec.now held) }
    ensures { Gives (on_record rec.now (content rec.now)) (Asked rec.now held) d mem.old out.old result mem.new out.new }
{
    let Some(kind) = kind_at(rec, 4) else {
        unreachable!();
    };
    match kind {
        Kind::Vote => {
            keep_ballot(mem, vote_row(View(u64_at(rec, 8))), rec);
            no_block(d)
        }
        Kind::Commit => {
            keep_ballot(mem, commit_row(View(u64_at(rec, 8))), rec);
            no_block(d)
        }
        Kind::Timeout => {
            keep_timeout(mem, rec);
            no_block(d)
        }
        Kind::Proposal => on_proposal(mem, out, d, rec, held),
        Kind::Block => on_block(mem, d, rec, held),
        _ => no_block(progress(mem, out, d, rec)),
    }
}
