// What an accepted call does before the rules run: an accepted record by its kind, the timer, propose, and the memory that an opening leaves.
// The store isn't lent here: an event is told whether the block is held, and hands back a new block with its place for the caller to fill in.
// Promises: with that block filled in, what is left is what the event of `protocol` says (`Gives`), for every store of which the told fact is
// true. It asks that memory passes refusal 2, that the record was accepted, and that there is room. Rests on `act`.
#![tactic(auto)]

pub mod host;
pub mod record;

ghost use Rattle.std.specs.Prelude.{◌≡◌, ◌+◌, ◌≤◌, ◌&&◌, None, ltb, length};
ghost use Rattle.settings.specs.Quorum.{replicas};
ghost use Rattle.wire.specs.Fields.{vote_length};
ghost use Rattle.memory.specs.Layout.{memory_length, entry_room, settings_of, block_count_of};
ghost use Rattle.protocol.specs.Refusals.{store_length};
ghost use Rattle.protocol.specs.Events.{proposition_of};
ghost use Rattle.act.specs.Draft.{Ready};
ghost use Rattle.act.specs.Progress.{IsProgress};
ghost use Rattle.event.specs.Event.{Gives, HeldIs, HasRoom, placed_for, counted_in, block_of_child, hold_vote};

use act::progress::{adopt_safe, progress};
use act::{Draft, send_vote};
use blocks::Block;
use counters::Counters;
use memory::{block_count, put_block_count};
use settings::View;
use wire::Child;

// A block that is new to the store, and the place at which the caller fills it in.
#[derive(Clone, Copy)]
pub struct Placed {
    pub place: usize,
    pub block: Block,
}

// The draft so far, and the block that the caller fills in, where one is new.
#[derive(Clone, Copy)]
pub struct Event {
    pub draft: Draft,
    pub placed: Option<Placed>,
}

// The block that a proposal, or a record of kind 8, is.
fn block_of(child: Child) -> Block
    ensures { result ≡ block_of_child child }
{
    let name = child.name;
    let parent = child.parent;
    Block {
        name,
        parent,
        height: child.height,
    }
}

// An event with no new block.
fn no_block(draft: Draft) -> Event
    ensures { result ≡ record { draft = draft; placed = None } }
{
    Event {
        draft,
        placed: None,
    }
}

// The place of a block of which is known whether it is held; a new one is counted.
fn take_place(mem: &mut [u8], block: Block, held: bool) -> Option<Placed>
    requires { (memory_length ≤ length mem.old) × (block_count_of mem.old ≤ store_length) }
    ensures { (result ≡ placed_for mem.old block held) × (mem.new ≡ counted_in mem.old held) }
{
    if held {
        return None;
    }
    let place = block_count(mem);
    put_block_count(mem, (place + 1) as u16);
    Some(Placed { place, block })
}

// A vote in the view may be sent: the view isn't timed, and no vote in it or in a higher one was sent.
fn may_vote(c: Counters, view: View) -> bool
    ensures { result ≡ (ltb c.timed.0 view.0 && ltb c.high.view.0 view.0) }
{
    c.timed < view && c.high.view < view
}

// The block of a proposal is held, and voted for unless the view is timed or a vote of it or a higher view was sent.
fn hold_and_vote(
    mem: &mut [u8],
    out: &mut [u8],
    d: Draft,
    view: View,
    block: Block,
    held: bool,
) -> Event
    requires { Ready d mem.old out.old vote_length × HasRoom mem.old held }
    ensures { Gives (hold_vote view.0 block) (HeldIs block.name held) d mem.old out.old result mem.new out.new }
{
    let placed = take_place(mem, block, held);
    if may_vote(d.counters, view) {
        let draft = send_vote(mem, out, d, view, block.name);
        return Event { draft, placed };
    }
    Event { draft: d, placed }
}

// A proposal of a view, with its progress certificate's record: in the current view that is only adopted.
fn proposition(
    mem: &mut [u8],
    out: &mut [u8],
    d: Draft,
    view: View,
    block: Block,
    rec: &[u8],
    held: bool,
) -> Event
    requires { Ready d mem.old out.old (entry_room + vote_length) × (IsProgress (replicas (settings_of mem.old)) rec.now × HasRoom mem.old held) }
    ensures { Gives (proposition_of view.0 block rec.now) (HeldIs block.name held) d mem.old out.old result mem.new out.new }
{
    if view == d.counters.view {
        let adopted = Draft {
            counters: adopt_safe(mem, d.counters, rec),
            at: d.at,
        };
        return hold_and_vote(mem, out, adopted, view, block, held);
    }
    let next = progress(mem, out, d, rec);
    hold_and_vote(mem, out, next, view, block, held)
}
