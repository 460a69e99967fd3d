// The fields of a record that has its kind's length.
ghost use Rattle.std.specs.Prelude.{◌≡◌, ◌+◌, ◌*◌, ◌≤◌, length, drop};
ghost use Rattle.std.specs.Slice.Iter.{chunks_exact_size};
ghost use Rattle.wire.specs.Kinds.{IsKind};
ghost use Rattle.wire.specs.Fields.{number_at, cut, slots_left, kind_of, block_certificate_length, timeout_length, timeouts_head, proposal_head, block_length};
ghost use Rattle.wire.specs.Content.{vote_at, carried_of, timeout_of, certificate_of, progress_at, progress_means, child_at, proposed_of, block_of};

use crate::{
    BlockCertificate, Carried, Child, Kind, Progress, Timeout, TimeoutCertificate, Vote, length,
};
use codec::name_at;
use codec::num::{u16_at, u64_at};
use settings::{Height, View};
use std::slice::ChunksExact;

// The kind whose number stands at a place: in a record at 4, of the certificate inside a timeout at 56.
pub fn kind_at(rec: &[u8], at: usize) -> Option<Kind>
    requires { at + 2 ≤ length rec.now }
    ensures { IsKind (number_at rec.now at 2) result }
{
    Kind::try_from(u16_at(rec, at)).ok()
}

// A view and the name behind it.
#[tactic(auto, unfolding(crate::specs::Content::vote_at))]
pub fn vote(rec: &[u8], at: usize) -> Vote
    requires { at + 40 ≤ length rec.now }
    ensures { result ≡ vote_at rec.now at }
{
    Vote {
        view: View(u64_at(rec, at)),
        name: name_at(rec, at + 8),
    }
}

#[tactic(auto, unfolding(crate::specs::Content::carried_of))]
fn carried(rec: &[u8]) -> Carried
    requires { timeout_length ≤ length rec.now }
    ensures { result ≡ carried_of rec.now }
{
    Carried {
        kind: u16_at(rec, 56),
        view: View(u64_at(rec, 64)),
        name: name_at(rec, 72),
        signers: u64_at(rec, 104),
    }
}

// The reader of timeouts, for a record of kind 5 and for each timeout inside a timeout certificate.
#[tactic(auto, unfolding(crate::specs::Content::timeout_of, crate::specs::Content::vote_at, crate::specs::Content::carried_of))]
pub fn timeout(rec: &[u8]) -> Timeout
    requires { timeout_length ≤ length rec.now }
    ensures { result ≡ timeout_of rec.now }
{
    Timeout {
        sender: u16_at(rec, 6),
        view: View(u64_at(rec, 8)),
        high: vote(rec, 16),
        carried: carried(rec),
    }
}

// The timeouts inside a timeout certificate of so many: each is a record of its own.
pub fn timeouts(rec: &[u8], count: usize) -> ChunksExact<'_, u8>
    requires { timeouts_head + timeout_length * count ≤ length rec.now }
    ensures size { chunks_exact_size result ≡ timeout_length }
    ensures slots { slots_left result ≡ cut count (drop timeouts_head rec.now) }
{
    rec[length::TIMEOUTS_HEAD..length::TIMEOUTS_HEAD + length::TIMEOUT * count].chunks_exact(
        length::TIMEOUT,
    )
}

// The progress certificate that begins at a place: in a proposal at 88, in a record of kind 3 or 6 at 0.
pub fn progress(rec: &[u8], at: usize) -> Progress
    requires { (at + timeouts_head ≤ length rec.now) × (kind_of (drop at rec.now) ≡ 3 → at + block_certificate_length ≤ length rec.now) }
    ensures { (result ≡ progress_at rec.now at) × (progress_means rec.now result ≡ certificate_of (drop at rec.now)) }
{
    match kind_at(rec, at + 4) {
        Some(Kind::BlockCertificate) => Progress::Block(BlockCertificate {
            place: at,
            view: View(u64_at(rec, at + 8)),
            signers: u64_at(rec, at + 48),
        }),
        _ => Progress::Timeouts(TimeoutCertificate {
            place: at,
            count: u16_at(rec, at + 16) as usize,
        }),
    }
}

// What stands in a proposal from 16 on, in a block from 8 on: name, parent and height.
#[tactic(auto, unfolding(crate::specs::Content::child_at))]
fn child(rec: &[u8], at: usize) -> Child
    requires { at + 72 ≤ length rec.now }
    ensures { result ≡ child_at rec.now at }
{
    Child {
        name: name_at(rec, at),
        parent: name_at(rec, at + 32),
        height: Height(u64_at(rec, at + 64)),
    }
}

// What a proposal says of its name.
#[tactic(auto, unfolding(crate::specs::Content::child_at, crate::specs::Content::proposed_of))]
pub fn proposed(rec: &[u8]) -> Child
    requires { proposal_head ≤ length rec.now }
    ensures { result ≡ proposed_of rec.now }
{
    child(rec, 16)
}

// What a block says of its name.
#[tactic(auto, unfolding(crate::specs::Content::child_at, crate::specs::Content::block_of))]
pub fn block(rec: &[u8]) -> Child
    requires { block_length ≤ length rec.now }
    ensures { result ≡ block_of rec.now }
{
    child(rec, 8)
}
