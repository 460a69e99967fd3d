// Writers: each puts one record into a region, at a place.
ghost use Rattle.std.specs.Prelude.{◌≡◌, ◌+◌, ◌-◌, ◌^◌, ◌≤◌, ◌<◌, length};
ghost use Rattle.codec.specs.Bytes.{patch};
ghost use Rattle.wire.specs.Encode.{header_bytes, named_bytes, vote_bytes, block_certificate_bytes, timeout_head, timeout_bytes, timeouts_head_bytes, proposal_head_bytes, proposal_bytes, release_bytes};
ghost use Rattle.wire.specs.Fields.{header_length, vote_length, block_certificate_length, timeout_length, timeouts_head, proposal_head, release_length};

use crate::{Child, Kind, Release, Timeout, Vote, length};
use codec::num::{put_le, put_u16, put_u32, put_u64};
use codec::{clear, put, put_name};
use settings::View;

fn put_header(out: &mut [u8], at: usize, size: usize, kind: u16, sender: u16)
    requires { (at + header_length ≤ length out.old) × (size < 2 ^ 32) }
    ensures { out.new ≡ patch out.old at (header_bytes size kind sender) }
{
    put_u32(out, at, size as u32);
    put_u16(out, at + 4, kind);
    put_u16(out, at + 6, sender);
}

// What several kinds begin with: header, view and name.
fn put_named(
    out: &mut [u8],
    at: usize,
    size: usize,
    kind: u16,
    sender: u16,
    view: View,
    name: [u8; 32],
)
    requires { (at + vote_length ≤ length out.old) × (size < 2 ^ 32) }
    ensures { out.new ≡ patch out.old at (named_bytes size kind sender view.0 name) }
{
    put_header(out, at, size, kind, sender);
    put_u64(out, at + 8, view.0);
    put_name(out, at + 16, name);
}

// A vote or a commit, by the kind's number.
#[tactic(auto, unfolding(crate::specs::Encode::named_bytes, crate::specs::Encode::vote_bytes))]
pub fn put_vote(out: &mut [u8], at: usize, kind: u16, sender: u16, vote: Vote)
    requires { at + vote_length ≤ length out.old }
    ensures { out.new ≡ patch out.old at (vote_bytes kind sender vote.view.0 vote.name) }
{
    put_named(out, at, length::VOTE, kind, sender, vote.view, vote.name);
}

pub fn put_block_certificate(out: &mut [u8], at: usize, sender: u16, vote: Vote, signers: u64)
    requires { at + block_certificate_length ≤ length out.old }
    ensures { out.new ≡ patch out.old at (block_certificate_bytes sender vote.view.0 vote.name signers) }
{
    put_named(
        out,
        at,
        length::BLOCK_CERTIFICATE,
        Kind::BlockCertificate.into(),
        sender,
        vote.view,
        vote.name,
    );
    put_u64(out, at + 48, signers);
}

pub fn put_release(out: &mut [u8], at: usize, sender: u16, release: Release)
    requires { at + release_length ≤ length out.old }
    ensures { out.new ≡ patch out.old at (release_bytes sender release.view.0 release.name release.height.0) }
{
    put_named(
        out,
        at,
        length::RELEASE,
        Kind::Release.into(),
        sender,
        release.view,
        release.name,
    );
    put_u64(out, at + 48, release.height.0);
}

// The first half of a timeout: header, view and high vote.
fn put_timeout_head(out: &mut [u8], at: usize, t: Timeout)
    requires { at + 56 ≤ length out.old }
    ensures { out.new ≡ patch out.old at (timeout_head t) }
{
    put_header(out, at, length::TIMEOUT, Kind::Timeout.into(), t.sender);
    put_u64(out, at + 8, t.view.0);
    put_u64(out, at + 16, t.high.view.0);
    put_name(out, at + 24, t.high.name);
}

pub fn put_timeout(out: &mut [u8], at: usize, t: Timeout)
    requires { at + timeout_length ≤ length out.old }
    ensures { out.new ≡ patch out.old at (timeout_bytes t) }
{
    put_timeout_head(out, at, t);
    put_u16(out, at + 56, t.carried.kind);
    clear(out, at + 58, 6);
    put_u64(out, at + 64, t.carried.view.0);
    put_name(out, at + 72, t.carried.name);
    put_u64(out, at + 104, t.carried.signers);
}

// A timeout certificate before its timeouts, of which there are size bytes.
pub fn put_timeouts_head(out: &mut [u8], at: usize, sender: u16, view: View, size: usize)
    requires { (at + timeouts_head ≤ length out.old) × (size < 2 ^ 32 - timeouts_head) }
    ensures { out.new ≡ patch out.old at (timeouts_head_bytes sender view.0 size) }
{
    put_header(
        out,
        at,
        length::TIMEOUTS_HEAD + size,
        Kind::TimeoutCertificate.into(),
        sender,
    );
    put_u64(out, at + 8, view.0);
    put_le(out, at + 16, 2, (size / length::TIMEOUT) as u64);
    clear(out, at + 18, 6);
}

// A proposal before its progress certificate, which has size bytes.
pub fn put_proposal_head(
    out: &mut [u8],
    at: usize,
    sender: u16,
    view: View,
    child: Child,
    size: usize,
)
    requires { (at + proposal_head ≤ length out.old) × (size < 2 ^ 32 - proposal_head) }
    ensures { out.new ≡ patch out.old at (proposal_head_bytes sender view.0 child.name child.parent child.height.0 size) }
{
    put_named(
        out,
        at,
        length::PROPOSAL_HEAD + size,
        Kind::Proposal.into(),
        sender,
        view,
        child.name,
    );
    put_name(out, at + 48, child.parent);
    put_u64(out, at + 80, child.height.0);
}

// A proposal: its progress certificate comes in as bytes, a record of kind 3 or 6.
pub fn put_proposal(
    out: &mut [u8],
    at: usize,
    sender: u16,
    view: View,
    child: Child,
    progress: &[u8],
)
    requires { (at + (proposal_head + length progress.now) ≤ length out.old) × (length progress.now < 2 ^ 32 - proposal_head) }
    ensures { out.new ≡ patch out.old at (proposal_bytes sender view.0 child.name child.parent child.height.0 progress.now) }
{
    put_proposal_head(out, at, sender, view, child, progress.len());
    put(out, at + length::PROPOSAL_HEAD, progress);
}
