// The judgement of each call: why it is refused, if it is. Over counters by value, lent memory and a record; no
// writes. A call first judges all that needs no store and learns what is to be looked up there (`Want`); with what was found the rest is judged.
// Promises: for any counters, memory, lengths and record, both refusals are those of the lists of `protocol`, in 01's order; together they are
// the call's answer (proofs/Whole.antt: record_judged_lem, propose_judged_lem, timer_judged_lem). Of a call that comes with contents (02, 2.5) `contents` says what these refuse it by: that, or else
// the call without them, is the call (record_core_with_lem, propose_core_with_lem). Rests on `refusals`, `shape`, `certificate`, `memory` and `digest`.
#![tactic(auto)]

pub mod chain;
pub mod contents;

ghost use Rattle.std.specs.Prelude.{◌≡◌, true, false, List, [], ◌≤◌, length};
ghost use Rattle.settings.specs.Quorum.{largest, replicas};
ghost use Rattle.settings.specs.Refusal.{refused};
ghost use Rattle.wire.specs.Shape.{bad_length, bad_kind};
ghost use Rattle.wire.specs.Content.{certificate_of, content};
ghost use Rattle.blocks.specs.declared.Block.{Block};
ghost use Rattle.memory.specs.Layout.{memory_length, settings_of, entry_of, entry_place};
ghost use Rattle.protocol.specs.Refusals.{region_rules, timer_rules};
ghost use Rattle.protocol.specs.Calls.{◌then◌};
ghost use Rattle.refusals.specs.Number.{first_of};
ghost use Rattle.refusals.specs.Early.{lent, certificate_sized};
ghost use Rattle.judge.specs.Want.{nothing, names, accepted, wanted, safe_block, asked, record_want, propose_want};

use certificate::safe::safe_certificate;
use codec::name_at;
use counters::Counters;
use memory::{ENTRY_PLACE, block_count, entry_length, settings};
use refusals::early::{below_view, early, propose_early};
use refusals::regions::regions;
use settings::{Refusal, View};
use wire::read::{kind_at, progress};
use wire::{Kind, length};

// What is to be looked up in the store: the names of a block and of the block below it, among the tip and the first `count` entries.
#[derive(Clone, Copy)]
pub struct Want {
    pub count: usize,
    pub name: [u8; 32],
    pub base: [u8; 32],
}

// Two names that no answer hangs on, among no entries.
fn nothing() -> Want
    ensures { accepted result ≡ nothing 0 }
{
    Want {
        count: 0,
        name: [0u8; 32],
        base: [0u8; 32],
    }
}

fn names(mem: &[u8], name: [u8; 32], base: [u8; 32]) -> Want
    requires { entry_place ≤ length mem.now }
    ensures { accepted result ≡ names mem.now name base }
{
    Want {
        count: block_count(mem),
        name,
        base,
    }
}

// What a record that has its shape is to look up, in regions that pass 2.
fn look_up(mem: &[u8], rec: &[u8]) -> Want
    requires { (memory_length ≤ length mem.now) × ((replicas (settings_of mem.now) ≤ largest) × ((bad_length rec.now ≡ false) × (bad_kind rec.now ≡ false))) }
    ensures { accepted result ≡ asked mem.now (content rec.now) }
{
    match kind_at(rec, 4) {
        Some(Kind::Proposal) => {
            let inner = progress(rec, length::PROPOSAL_HEAD);
            let safe = safe_certificate(rec, inner, settings(mem));
            names(mem, name_at(rec, 16), safe.name)
        }
        Some(Kind::Block) => names(mem, name_at(rec, 8), name_at(rec, 40)),
        _ => nothing(),
    }
}

// The safe block of the entry certificate.
fn entry_base(mem: &[u8]) -> [u8; 32]
    requires { (memory_length ≤ length mem.now) × ((replicas (settings_of mem.now) ≤ largest) × (certificate_sized (replicas (settings_of mem.now)) (entry_of mem.now) ≡ true)) }
    ensures { result ≡ safe_block mem.now (certificate_of (entry_of mem.now)) }
{
    let entry = &mem[ENTRY_PLACE..ENTRY_PLACE + entry_length(mem)];
    safe_certificate(entry, progress(entry, 0), settings(mem)).name
}

// A record. `entries` and `room` are the lengths of the store and of the output region.
pub fn record(
    c: Counters,
    mem: &[u8],
    entries: usize,
    room: usize,
    rec: &[u8],
) -> Result<Want, Refusal>
    ensures { (s : List Block) → length s ≡ entries → wanted result ≡ record_want (lent c mem.now s) room rec.now }
{
    regions(c, mem, entries, room)?;
    shape::check(rec, settings(mem).n())?;
    early(c, mem, rec)?;
    Ok(look_up(mem, rec))
}

// Propose a name.
pub fn propose(
    c: Counters,
    mem: &[u8],
    entries: usize,
    room: usize,
    name: [u8; 32],
) -> Result<Want, Refusal>
    ensures { (s : List Block) → length s ≡ entries → wanted result ≡ propose_want (lent c mem.now s) room name }
{
    regions(c, mem, entries, room)?;
    propose_early(c, mem, name)?;
    Ok(names(mem, name, entry_base(mem)))
}

// 7, 8 and 10 of the timer.
#[tactic(auto, unfolding(protocol::specs::Refusals::timer_rules, settings::specs::Refusal::refused, settings::specs::Refusal::number, refusals::specs::Number::first_of))]
fn timer_refusal(c: Counters, view: View) -> Result<(), Refusal>
    ensures { refused result ≡ first_of (timer_rules (lent c [] []) view.0) }
{
    if below_view(c.view, view) {
        return Err(Refusal::ViewBelow);
    }
    if c.view < view || View::LAST <= view {
        return Err(Refusal::ViewAbove);
    }
    if c.view <= c.timed {
        return Err(Refusal::Repeated);
    }
    Ok(())
}

// The timer of a view: its whole judgement.
pub fn timer(
    c: Counters,
    mem: &[u8],
    entries: usize,
    room: usize,
    view: View,
) -> Result<(), Refusal>
    ensures { (s : List Block) → length s ≡ entries → refused result ≡ first_of (region_rules (lent c mem.now s) room then timer_rules (lent c mem.now s) view.0) }
{
    regions(c, mem, entries, room)?;
    timer_refusal(c, view)
}
