// 16 and 17 (02, 2.5): what the contents that a call comes with refuse it by. Each is asked only where nothing that stands before it in the list applies, so the
// digest is computed where 17 is asked and nowhere else. A call that they don't refuse is the call without them.
ghost use Rattle.std.specs.Prelude.{◌≡◌, false, cond, eqb, List, ◌≤◌, ◌<◌, length};
ghost use Rattle.settings.specs.Quorum.{largest, last_height, replicas};
ghost use Rattle.settings.specs.Refusal.{number, refused};
ghost use Rattle.wire.specs.Shape.{bad_length, bad_kind};
ghost use Rattle.wire.specs.Content.{content};
ghost use Rattle.blocks.specs.declared.Block.{Block};
ghost use Rattle.memory.specs.Layout.{memory_length, settings_of};
ghost use Rattle.memory.specs.Leaders.{Listed};
ghost use Rattle.refusals.specs.Early.{lent};
ghost use Rattle.blocks.specs.Store.{found, found_of};
ghost use Rattle.judge.specs.Want.{accepted, wanted};
ghost use Rattle.judge.specs.Contents.{digest_number, digest_due, record_due, next_child, propose_want_with, propose_due};

use crate::chain::propose_first;
use crate::{Want, entry_base, names};
use blocks::Block;
use counters::Counters;
use digest::{name_of, too_long};
use memory::settings;
use refusals::early::{block_first, proposal_first, propose_early};
use refusals::regions::regions;
use settings::{Height, Refusal, View};
use wire::read::{block, kind_at, proposed};
use wire::{Child, Kind};

// 17: the name isn't the digest.
#[tactic(auto, using(codec::proofs::Library::pointwise_same), unfolding(crate::specs::Contents::digest_number, settings::specs::Refusal::refused, settings::specs::Refusal::number))]
fn digest_refusal(b: Child, contents: &[u8]) -> Result<(), Refusal>
    ensures { refused result ≡ digest_number b contents.now }
{
    if b.name != name_of(b.parent, b.height.0, contents) {
        return Err(Refusal::NameWrong);
    }
    Ok(())
}

// Kinds 7 and 8 that have their shape, with the parent and height that the record says; beside another kind nothing is asked.
fn digest_due(current: View, mem: &[u8], rec: &[u8], contents: &[u8]) -> Result<(), Refusal>
    requires { (memory_length ≤ length mem.now) × ((replicas (settings_of mem.now) ≤ largest) × (Listed mem.now × ((bad_length rec.now ≡ false) × (bad_kind rec.now ≡ false)))) }
    ensures { refused result ≡ digest_due mem.now current.0 (content rec.now) contents.now }
{
    match kind_at(rec, 4) {
        Some(Kind::Proposal) => {
            if proposal_first(current, mem, rec).is_err() {
                return Ok(());
            }
            digest_refusal(proposed(rec), contents)
        }
        Some(Kind::Block) => {
            if block_first(mem, rec).is_err() {
                return Ok(());
            }
            digest_refusal(block(rec), contents)
        }
        _ => Ok(()),
    }
}

// A record. `entries` and `room` are the lengths of the store and of the output region.
pub fn record_due(
    c: Counters,
    mem: &[u8],
    entries: usize,
    room: usize,
    rec: &[u8],
    contents: &[u8],
) -> Result<(), Refusal>
    ensures { (s : List Block) → length s ≡ entries → refused result ≡ record_due (lent c mem.now s) room rec.now contents.now }
{
    if regions(c, mem, entries, room).is_err() {
        return Ok(());
    }
    if too_long(contents) {
        return Err(Refusal::ContentsTooLong);
    }
    if shape::check(rec, settings(mem).n()).is_err() {
        return Ok(());
    }
    digest_due(c.view, mem, rec, contents)
}

// Propose a name: what it is to look up, or what it is refused by before that, 16 among it.
pub fn propose_want(
    c: Counters,
    mem: &[u8],
    entries: usize,
    room: usize,
    name: [u8; 32],
    contents: &[u8],
) -> Result<Want, Refusal>
    ensures { (s : List Block) → length s ≡ entries → wanted result ≡ propose_want_with (lent c mem.now s) room name contents.now }
{
    regions(c, mem, entries, room)?;
    if too_long(contents) {
        return Err(Refusal::ContentsTooLong);
    }
    propose_early(c, mem, name)?;
    Ok(names(mem, name, entry_base(mem)))
}

// The block that is proposed: on the safe block, at its height plus 1.
fn next_child(name: [u8; 32], want: Want, lower: Block) -> Child
    requires { lower.height.0 < last_height }
    ensures { result ≡ next_child name (accepted want) (found lower) }
{
    let parent = want.base;
    Child {
        name,
        parent,
        height: Height(lower.height.0 + 1),
    }
}

// 17 of propose, of which `propose_want` wanted these two blocks.
fn due_on_blocks(
    name: [u8; 32],
    want: Want,
    found: Option<Block>,
    under: Option<Block>,
    contents: &[u8],
) -> Result<(), Refusal>
    ensures { refused result ≡ propose_due name (accepted want) (found_of found) (found_of under) contents.now }
{
    match propose_first(found, under) {
        Ok(lower) => digest_refusal(next_child(name, want, lower), contents),
        Err(_) => Ok(()),
    }
}

// Of what refuses a propose before the store is asked, 16 alone is for its contents.
#[tactic(auto, unfolding(settings::specs::Refusal::refused, settings::specs::Refusal::number))]
pub fn length_refusal(refusal: Refusal) -> Result<(), Refusal>
    ensures { refused result ≡ cond (eqb (number refusal) 16) 16 0 }
{
    match refusal {
        Refusal::ContentsTooLong => Err(refusal),
        _ => Ok(()),
    }
}

// What contents refuse a propose by, after `propose_want` and with the two blocks that it wanted; where it refused the propose itself, no block is asked.
pub fn propose_due(
    name: [u8; 32],
    want: Result<Want, Refusal>,
    found: Option<Block>,
    under: Option<Block>,
    contents: &[u8],
) -> Result<(), Refusal>
    ensures { refused result ≡ propose_due name (wanted want) (found_of found) (found_of under) contents.now }
{
    match want {
        Ok(want) => due_on_blocks(name, want, found, under, contents),
        Err(refusal) => length_refusal(refusal),
    }
}
