// The place "shape": refusals 3, 4 and 5, over inner records too.
// Promises: for any slice and any n the result is 01's answer; no slice traps. Rests on `codec` and on the definitions and readers of `wire`.
#![tactic(auto)]

ghost use Rattle.std.specs.Prelude.{◌≡◌, false, ◌+◌, ◌*◌, ◌≤◌, length, drop};
ghost use Rattle.settings.specs.Refusal.{answer};
ghost use Rattle.wire.specs.Fields.{cut, progress_of, header_length, timeout_length, timeouts_head, proposal_head};
ghost use Rattle.wire.specs.Shape.{frame_bad, timeouts_length, certificate_length, progress_length, kind_length, bad_length, carried_kind_bad, slot_kind_bad, certificate_kind_bad, bad_kind, beyond, half_empty, timeout_value_bad, slot_value_bad, slots_value_bad, certificate_value_bad, progress_value_bad, proposal_value_bad, bad_value, shape_of};

use codec::name::is_zero;
use codec::name_at;
use codec::num::{le_at, u16_at, u32_at, u64_at};
use settings::{Refusal, View};
use wire::read::{kind_at, timeouts, vote};
use wire::{Kind, Vote, length};

// ---- 3: lengths

// Too short for a header, or the length field isn't the slice's length.
#[tactic(auto, unfolding(wire::specs::Shape::frame_bad))]
pub fn frame_bad(rec: &[u8]) -> bool
    ensures { result ≡ frame_bad rec.now }
{
    rec.len() < length::HEADER || u32_at(rec, 0) as usize != rec.len()
}

#[tactic(auto, unfolding(wire::specs::Shape::timeouts_length))]
fn timeouts_length_bad(rec: &[u8]) -> bool
    ensures { result ≡ timeouts_length rec.now }
{
    if rec.len() < length::TIMEOUTS_HEAD {
        return true;
    }
    let count = u16_at(rec, 16) as usize;
    if rec.len() != length::TIMEOUTS_HEAD + length::TIMEOUT * count {
        return true;
    }
    timeouts(rec, count).any(frame_bad)
}

#[tactic(auto, unfolding(wire::specs::Shape::certificate_length))]
fn certificate_length_bad(rec: &[u8]) -> bool
    requires { header_length ≤ length rec.now }
    ensures { result ≡ certificate_length rec.now }
{
    match kind_at(rec, 4) {
        Some(Kind::BlockCertificate) => rec.len() != length::BLOCK_CERTIFICATE,
        Some(Kind::TimeoutCertificate) => timeouts_length_bad(rec),
        _ => false,
    }
}

// By kind, of a slice with a header.
#[tactic(auto, unfolding(wire::specs::Shape::kind_length))]
fn kind_length_bad(rec: &[u8]) -> bool
    requires { header_length ≤ length rec.now }
    ensures { result ≡ kind_length rec.now }
{
    match kind_at(rec, 4) {
        Some(Kind::Vote | Kind::Commit) => rec.len() != length::VOTE,
        Some(Kind::Timeout) => rec.len() != length::TIMEOUT,
        Some(Kind::Proposal) => progress_length_bad(rec),
        Some(Kind::Block) => rec.len() != length::BLOCK,
        _ => certificate_length_bad(rec),
    }
}

// The progress certificate of a proposal, a record of its own.
fn progress(rec: &[u8]) -> &[u8]
    requires { proposal_head ≤ length rec.now }
    ensures { result.now ≡ progress_of rec.now }
{
    &rec[length::PROPOSAL_HEAD..]
}

#[tactic(auto, using(wire::proofs::Frames::frame_header), unfolding(wire::specs::Shape::progress_length))]
fn progress_length_bad(rec: &[u8]) -> bool
    ensures { result ≡ progress_length rec.now }
{
    if rec.len() < length::PROPOSAL_HEAD {
        return true;
    }
    let inner = progress(rec);
    frame_bad(inner) || certificate_length_bad(inner)
}

#[tactic(auto, using(wire::proofs::Frames::frame_header), unfolding(wire::specs::Shape::bad_length))]
fn bad_length(rec: &[u8]) -> bool
    ensures { result ≡ bad_length rec.now }
{
    frame_bad(rec) || kind_length_bad(rec)
}

// ---- 4: kinds

#[tactic(auto, unfolding(wire::specs::Shape::carried_kind_bad))]
fn carried_kind_bad(rec: &[u8]) -> bool
    requires { timeout_length ≤ length rec.now }
    ensures { result ≡ carried_kind_bad rec.now }
{
    !matches!(
        kind_at(rec, 56),
        Some(Kind::BlockCertificate | Kind::WeakCertificate)
    )
}

#[tactic(auto, unfolding(wire::specs::Shape::slot_kind_bad))]
fn slot_kind_bad(rec: &[u8]) -> bool
    requires { timeout_length ≤ length rec.now }
    ensures { result ≡ slot_kind_bad rec.now }
{
    kind_at(rec, 4) != Some(Kind::Timeout) || carried_kind_bad(rec)
}

#[tactic(auto, unfolding(wire::specs::Shape::certificate_kind_bad))]
fn certificate_kind_bad(rec: &[u8]) -> bool
    requires { (header_length ≤ length rec.now) × (certificate_length rec.now ≡ false) }
    ensures { result ≡ certificate_kind_bad rec.now }
{
    match kind_at(rec, 4) {
        Some(Kind::BlockCertificate) => false,
        Some(Kind::TimeoutCertificate) => {
            timeouts(rec, u16_at(rec, 16) as usize).any(slot_kind_bad)
        }
        _ => true,
    }
}

#[tactic(auto, using(wire::proofs::Frames::whole_header, wire::proofs::Frames::whole_timeout, wire::proofs::Frames::whole_inner, wire::proofs::Frames::whole_proposal, wire::proofs::Frames::inner_length, wire::proofs::Frames::whole_certificate), unfolding(wire::specs::Shape::bad_kind))]
fn bad_kind(rec: &[u8]) -> bool
    requires { bad_length rec.now ≡ false }
    ensures { result ≡ bad_kind rec.now }
{
    match kind_at(rec, 4) {
        Some(Kind::Vote | Kind::Commit | Kind::Block) => false,
        Some(Kind::Timeout) => carried_kind_bad(rec),
        Some(Kind::Proposal) => certificate_kind_bad(progress(rec)),
        _ => certificate_kind_bad(rec),
    }
}

// ---- 5: values

// A signer numbered n or above. No set of 64 bits has one of 64 or above.
#[tactic(auto, unfolding(wire::specs::Shape::beyond))]
fn signer_beyond(n: u64, signers: u64) -> bool
    ensures { result ≡ beyond n signers }
{
    n < 64 && 1u64 << n <= signers
}

// View 0 and a name, or no name and a view.
#[tactic(auto, unfolding(wire::specs::Shape::half_empty))]
fn half_empty(vote: Vote) -> bool
    ensures { result ≡ half_empty vote.view.0 vote.name }
{
    (vote.view.0 == 0) != is_zero(vote.name)
}

#[tactic(auto, unfolding(wire::specs::Shape::timeout_value_bad, wire::specs::Content::vote_at))]
fn timeout_value_bad(rec: &[u8], n: u64) -> bool
    requires { timeout_length ≤ length rec.now }
    ensures { result ≡ timeout_value_bad n rec.now }
{
    le_at(rec, 58, 6) != 0 || half_empty(vote(rec, 16)) || signer_beyond(n, u64_at(rec, 104))
}

#[tactic(auto, unfolding(wire::specs::Shape::slot_value_bad))]
fn slot_value_bad(rec: &[u8], n: u64, view: View, low: u64) -> bool
    requires { timeout_length ≤ length rec.now }
    ensures { result ≡ slot_value_bad n view.0 low rec.now }
{
    let sender = u16_at(rec, 6) as u64;
    View(u64_at(rec, 8)) != view || sender < low || n <= sender || timeout_value_bad(rec, n)
}

fn slots_value_bad(rec: &[u8], count: usize, n: u64, view: View) -> bool
    requires { timeouts_head + timeout_length * count ≤ length rec.now }
    ensures { result ≡ slots_value_bad n view.0 0 (cut count (drop timeouts_head rec.now)) }
{
    let mut low: u64 = 0;
    for slot in timeouts(rec, count) {
        if slot_value_bad(slot, n, view, low) {
            return true;
        }
        low = u16_at(slot, 6) as u64 + 1;
    }
    false
}

#[tactic(auto, using(wire::proofs::Frames::certificate_block, wire::proofs::Frames::certificate_timeouts, wire::proofs::Frames::certificate_other), unfolding(wire::specs::Shape::certificate_value_bad))]
fn certificate_value_bad(rec: &[u8], n: u64) -> bool
    requires { (header_length ≤ length rec.now) × ((certificate_length rec.now ≡ false) × (certificate_kind_bad rec.now ≡ false)) }
    ensures { result ≡ certificate_value_bad n rec.now }
{
    if kind_at(rec, 4) == Some(Kind::BlockCertificate) {
        return signer_beyond(n, u64_at(rec, 48));
    }
    let count = u16_at(rec, 16) as usize;
    le_at(rec, 18, 6) != 0 || slots_value_bad(rec, count, n, View(u64_at(rec, 8)))
}

#[tactic(auto, unfolding(wire::specs::Shape::progress_value_bad))]
fn progress_value_bad(rec: &[u8], n: u64, sender: u16) -> bool
    requires { (header_length ≤ length rec.now) × ((certificate_length rec.now ≡ false) × (certificate_kind_bad rec.now ≡ false)) }
    ensures { result ≡ progress_value_bad n sender rec.now }
{
    let inner = u16_at(rec, 6);
    inner != sender || n <= inner as u64 || certificate_value_bad(rec, n)
}

#[tactic(auto, unfolding(wire::specs::Shape::proposal_value_bad))]
fn proposal_value_bad(rec: &[u8], n: u64) -> bool
    requires { (proposal_head + header_length ≤ length rec.now) × ((certificate_length (progress_of rec.now) ≡ false) × (certificate_kind_bad (progress_of rec.now) ≡ false)) }
    ensures { result ≡ proposal_value_bad n rec.now }
{
    is_zero(name_at(rec, 16)) || progress_value_bad(progress(rec), n, u16_at(rec, 6))
}

#[tactic(auto, using(wire::proofs::Frames::whole_header, wire::proofs::Frames::whole_vote, wire::proofs::Frames::whole_commit, wire::proofs::Frames::whole_timeout, wire::proofs::Frames::whole_block, wire::proofs::Frames::whole_proposal, wire::proofs::Frames::inner_length, wire::proofs::Frames::inner_kind, wire::proofs::Frames::whole_certificate, wire::proofs::Frames::certificate_kind), unfolding(wire::specs::Shape::bad_value))]
fn bad_value(rec: &[u8], n: u64) -> bool
    requires { (bad_length rec.now ≡ false) × (bad_kind rec.now ≡ false) }
    ensures { result ≡ bad_value n rec.now }
{
    match kind_at(rec, 4) {
        Some(Kind::Vote | Kind::Commit) => is_zero(name_at(rec, 16)),
        Some(Kind::Timeout) => timeout_value_bad(rec, n),
        Some(Kind::Proposal) => proposal_value_bad(rec, n),
        Some(Kind::Block) => is_zero(name_at(rec, 8)),
        _ => certificate_value_bad(rec, n),
    }
}

// ---- the place: whether a slice is a record, in a cluster of n replicas
#[tactic(auto, unfolding(wire::specs::Shape::shape_of, settings::specs::Refusal::answer, settings::specs::Refusal::number, settings::specs::Answer::judge))]
pub fn check(rec: &[u8], n: u64) -> Result<(), Refusal>
    ensures { answer result ≡ shape_of n rec.now }
{
    if bad_length(rec) {
        return Err(Refusal::Length);
    }
    if bad_kind(rec) {
        return Err(Refusal::Kind);
    }
    if bad_value(rec, n) {
        return Err(Refusal::Content);
    }
    Ok(())
}
