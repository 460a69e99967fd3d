// Events that no record brings: the timer, propose, and the memory that an opening leaves.
ghost use Rattle.std.specs.Prelude.{◌≡◌, ◌+◌, ◌≤◌, ◌<◌, length};
ghost use Rattle.settings.specs.Quorum.{largest, last_height, replicas};
ghost use Rattle.settings.specs.Opening.{most_leaders};
ghost use Rattle.codec.specs.Bytes.{patch};
ghost use Rattle.codec.specs.Names.{zero_name};
ghost use Rattle.wire.specs.Encode.{block_certificate_bytes};
ghost use Rattle.wire.specs.Fields.{vote_length, timeout_length, proposal_head};
ghost use Rattle.memory.specs.Layout.{memory_length, entry_room, settings_of, block_count_of, entry_of};
ghost use Rattle.protocol.specs.Refusals.{store_length};
ghost use Rattle.protocol.specs.Events.{on_timer, on_propose};
ghost use Rattle.protocol.specs.Calls.{opened_memory};
ghost use Rattle.act.specs.Draft.{Ready};
ghost use Rattle.act.specs.Progress.{HasForm};
ghost use Rattle.event.specs.Event.{Gives, Always, safe_of_entry, own_proposal_bytes, Proposable, head_bytes};

use crate::{Event, block_of, hold_and_vote, no_block};
use act::{Draft, send_timeout};
use certificate::Certificate;
use certificate::safe::safe_certificate;
use codec::num::put_u16;
use counters::adopting;
use memory::leaders::put_leaders;
use memory::window::{drop_ballots, drop_timeouts};
use memory::{
    BALLOT_ROWS, ENTRY_PLACE, TIMEOUT_ROWS, entry_length, own, put_block_count, put_entry, settings,
};
use settings::{Height, Settings, View};
use wire::read::progress;
use wire::write::{put_block_certificate, put_proposal};
use wire::{Child, Vote, length};

// The timer of a view.
pub fn on_timer(mem: &mut [u8], out: &mut [u8], d: Draft, view: View) -> Event
    requires { Ready d mem.old out.old timeout_length }
    ensures { Gives (on_timer view.0) Always d mem.old out.old result mem.new out.new }
{
    no_block(send_timeout(mem, out, d, view))
}

// The safe certificate of the entry certificate.
fn safe_of_entry(mem: &[u8]) -> Certificate
    requires { (memory_length ≤ length mem.now) × ((replicas (settings_of mem.now) ≤ largest) × HasForm (replicas (settings_of mem.now)) (entry_of mem.now)) }
    ensures { result ≡ safe_of_entry mem.now }
{
    let entry = &mem[ENTRY_PLACE..ENTRY_PLACE + entry_length(mem)];
    safe_certificate(entry, progress(entry, 0), settings(mem))
}

// The proposal of a child, with the entry certificate, is written behind what is written; the place after it.
fn put_own_proposal(mem: &[u8], out: &mut [u8], d: Draft, child: Child) -> usize
    requires { (memory_length ≤ length mem.now) × ((length (entry_of mem.now) ≤ entry_room) × (d.at + (proposal_head + entry_room) ≤ length out.old)) }
    ensures { (result ≡ d.at + (proposal_head + length (entry_of mem.now))) × (out.new ≡ patch out.old d.at (own_proposal_bytes mem.now d.counters.view.0 child)) }
{
    let size = entry_length(mem);
    let entry = &mem[ENTRY_PLACE..ENTRY_PLACE + size];
    put_proposal(out, d.at, own(mem), d.counters.view, child, entry);
    d.at + (length::PROPOSAL_HEAD + size)
}

// Propose: a block of that name is built on the safe block, whose height is handed in, sent, and taken as one's own.
pub fn on_propose(mem: &mut [u8], out: &mut [u8], d: Draft, name: [u8; 32], base: Height) -> Event
    requires { Ready d mem.old out.old (proposal_head + entry_room + vote_length) × ((base.0 < last_height) × (block_count_of mem.old < store_length)) }
    ensures { Gives (on_propose name) (Proposable name base.0) d mem.old out.old result mem.new out.new }
{
    let safe = safe_of_entry(mem);
    let parent = safe.name;
    let child = Child {
        name,
        parent,
        height: Height(base.0 + 1),
    };
    let at = put_own_proposal(mem, out, d, child);
    let next = Draft {
        counters: adopting(d.counters, safe),
        at,
    };
    hold_and_vote(mem, out, next, d.counters.view, block_of(child), false)
}

// Settings and own number.
fn put_head(mem: &mut [u8], s: Settings, own: u16)
    requires { memory_length ≤ length mem.old }
    ensures { mem.new ≡ patch mem.old 0 (head_bytes s own) }
{
    put_u16(mem, 0, s.f);
    put_u16(mem, 2, s.c);
    put_u16(mem, 4, s.k);
    put_u16(mem, 6, own);
}

// The genesis certificate's record.
fn genesis_record(own: u16) -> [u8; length::BLOCK_CERTIFICATE]
    ensures { result ≡ block_certificate_bytes own 0 zero_name 0 }
{
    let mut rec = [0u8; length::BLOCK_CERTIFICATE];
    let genesis = Vote {
        view: View(0),
        name: [0u8; 32],
    };
    put_block_certificate(&mut rec, 0, own, genesis, 0);
    rec
}

// What an opening leaves in the memory: the leader list, no held block, the genesis certificate as entry certificate, and empty rows.
pub fn open_memory(mem: &mut [u8], s: Settings, own: u16, leaders: &[u8])
    requires { (memory_length ≤ length mem.old) × (length leaders.now ≤ most_leaders) }
    ensures { mem.new ≡ opened_memory mem.old s own leaders.now }
{
    let entry = genesis_record(own);
    put_head(mem, s, own);
    put_leaders(mem, leaders);
    put_block_count(mem, 0);
    put_entry(mem, &entry);
    drop_ballots(mem, View(0), BALLOT_ROWS);
    drop_timeouts(mem, View(0), TIMEOUT_ROWS);
}
