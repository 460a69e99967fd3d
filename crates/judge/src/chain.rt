// 10 to 14 of the kinds 7 and 8 and of propose, with what the store holds of two names: `found` of the block's, `under` of the block's below it.
ghost use Rattle.std.specs.Prelude.{◌≡◌, ◌<◌, false, not, ◌&&◌, ◌∷◌, IfOk};
ghost use Rattle.settings.specs.Answer.{◌⇒◌};
ghost use Rattle.settings.specs.Quorum.{last_height};
ghost use Rattle.settings.specs.Refusal.{refused};
ghost use Rattle.wire.specs.Shape.{bad_length};
ghost use Rattle.wire.specs.Content.{content};
ghost use Rattle.blocks.specs.Store.{found, found_of};
ghost use Rattle.refusals.specs.Number.{first_of};
ghost use Rattle.judge.specs.Want.{accepted};
ghost use Rattle.judge.specs.Late.{same_found, misplaced_on, store_full, chain_rules, late_rules, late_first, late_propose};

use crate::Want;
use blocks::{Block, STORE_LENGTH};
use settings::{Height, Refusal};
use wire::read::{block, kind_at, proposed};
use wire::{Child, Kind};

// A block is found, with that parent and height.
#[tactic(auto, using(codec::proofs::Library::pointwise_same), unfolding(crate::specs::Late::same_found))]
fn same_found(found: Option<Block>, b: Child) -> bool
    ensures { result ≡ ((found_of found).is && same_found (found_of found) b) }
{
    match found {
        Some(held) => b.parent == held.parent && b.height == held.height,
        None => false,
    }
}

// A block is found, with another parent or height.
fn other_found(found: Option<Block>, b: Child) -> bool
    ensures { result ≡ ((found_of found).is && not (same_found (found_of found) b)) }
{
    found.is_some() && !same_found(found, b)
}

// A height that isn't the lower block's plus 1, or is over the largest.
#[tactic(auto, unfolding(crate::specs::Late::misplaced_on))]
fn misplaced_on(lower: Block, b: Child) -> bool
    ensures { result ≡ misplaced_on (found lower) b }
{
    b.height.0 == 0 || b.height.0 - 1 != lower.height.0 || Height::LAST < b.height
}

// A new block, and no room in the store.
#[tactic(auto, unfolding(crate::specs::Late::store_full))]
fn store_full(want: Want, found: Option<Block>) -> bool
    ensures { result ≡ store_full (accepted want) (found_of found) }
{
    found.is_none() && STORE_LENGTH <= want.count
}

// 11 to 14.
#[tactic(auto, using(codec::proofs::Library::pointwise_same), unfolding(crate::specs::Late::chain_rules, settings::specs::Refusal::refused, settings::specs::Refusal::number, refusals::specs::Number::first_of))]
fn chain(want: Want, found: Option<Block>, under: Option<Block>, b: Child) -> Result<(), Refusal>
    ensures { refused result ≡ first_of (chain_rules (accepted want) (found_of found) (found_of under) b) }
{
    if other_found(found, b) {
        return Err(Refusal::Conflicting);
    }
    let Some(lower) = under else {
        return Err(Refusal::ParentMissing);
    };
    if b.parent != want.base || misplaced_on(lower, b) {
        return Err(Refusal::ParentWrong);
    }
    if store_full(want, found) {
        return Err(Refusal::StoreFull);
    }
    Ok(())
}

// Kind 8 has 10 before them.
fn block_chain(
    want: Want,
    found: Option<Block>,
    under: Option<Block>,
    b: Child,
) -> Result<(), Refusal>
    ensures { refused result ≡ first_of (((found_of found).is && same_found (found_of found) b) ⇒ 10 ∷ chain_rules (accepted want) (found_of found) (found_of under) b) }
{
    if same_found(found, b) {
        return Err(Refusal::Repeated);
    }
    chain(want, found, under, b)
}

// A record that has its shape, after what `record` wants was looked up.
pub fn record_chain(
    rec: &[u8],
    want: Want,
    found: Option<Block>,
    under: Option<Block>,
) -> Result<(), Refusal>
    requires { bad_length rec.now ≡ false }
    ensures { refused result ≡ first_of (late_rules (accepted want) (found_of found) (found_of under) (content rec.now)) }
{
    match kind_at(rec, 4) {
        Some(Kind::Proposal) => chain(want, found, under, proposed(rec)),
        Some(Kind::Block) => block_chain(want, found, under, block(rec)),
        _ => Ok(()),
    }
}

// 11 to 13 of propose, or the block below.
#[tactic(auto, unfolding(crate::specs::Late::late_first, settings::specs::Refusal::refused, settings::specs::Refusal::number, refusals::specs::Number::first_of))]
pub fn propose_first(found: Option<Block>, under: Option<Block>) -> Result<Block, Refusal>
    ensures refusal { refused result ≡ first_of (late_first (found_of found) (found_of under)) }
    ensures below { IfOk result (λ lower. (under ≡ Some lower) × (lower.height.0 < last_height)) }
{
    if found.is_some() {
        return Err(Refusal::Conflicting);
    }
    let Some(lower) = under else {
        return Err(Refusal::ParentMissing);
    };
    if Height::LAST <= lower.height {
        return Err(Refusal::ParentWrong);
    }
    Ok(lower)
}

// Propose, after what `propose` wants was looked up: its refusal, or the block below.
pub fn propose_chain(
    want: Want,
    found: Option<Block>,
    under: Option<Block>,
) -> Result<Block, Refusal>
    ensures refusal { refused result ≡ first_of (late_propose (accepted want) (found_of found) (found_of under)) }
    ensures below { IfOk result (λ lower. under ≡ Some lower) }
{
    let lower = propose_first(found, under)?;
    if store_full(want, found) {
        return Err(Refusal::StoreFull);
    }
    Ok(lower)
}
