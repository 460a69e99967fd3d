// The safe certificate of a progress certificate: the highest of those carried in its timeouts and those that equal high votes build.
ghost use Rattle.std.specs.Prelude.{◌≡◌, map, ◌+◌, ◌*◌, ◌-◌, ◌≤◌, ◌<◌, ◌^◌, length, drop};
ghost use Rattle.settings.specs.Quorum.{largest, replicas};
ghost use Rattle.std.specs.Slice.Iter.{chunks_exact_size};
ghost use Rattle.wire.specs.Fields.{cut, slots_left, timeout_length, timeouts_head};
ghost use Rattle.wire.specs.Content.{timeout_of, progress_means, Within};
ghost use Rattle.certificate.specs.Safe.{signs, joins, gives, backed_by, backing, better, each, carried_by, built_by, safe_of_timeouts, safe_certificate};

use crate::good::block_certificate;
use crate::{Certificate, Tally};
use codec::name::same;
use codec::num::u16_at;
use settings::{Settings, View};
use std::slice::ChunksExact;
use wire::read::{timeout, timeouts, vote};
use wire::{Progress, Vote};

#[tactic(auto, unfolding(crate::specs::Safe::signs))]
pub fn signs(signers: u64, i: u64) -> bool
    requires { i < 64 }
    ensures { result ≡ signs signers i }
{
    (signers >> i) % 2 == 1
}

// The set with replica i in it, if there is one of that number among n.
fn joins(n: u64, i: u64, signers: u64) -> u64
    requires { n ≤ largest }
    ensures { result ≡ joins n i signers }
{
    if i < n && !signs(signers, i) {
        return signers + (1u64 << i);
    }
    signers
}

#[tactic(auto, unfolding(crate::specs::Safe::gives, wire::specs::Content::timeout_of, wire::specs::Content::vote_at))]
fn gives(rec: &[u8], high: Vote) -> bool
    requires { timeout_length ≤ length rec.now }
    ensures { result ≡ gives high.view.0 high.name (timeout_of rec.now) }
{
    let given = vote(rec, 16);
    given.view == high.view && same(given.name, high.name)
}

// One timeout more.
fn backed_by(n: u64, rec: &[u8], high: Vote, b: Tally) -> Tally
    requires { (n ≤ largest) × ((timeout_length ≤ length rec.now) × (b.count < 2 ^ 62)) }
    ensures { result ≡ backed_by n high.view.0 high.name (timeout_of rec.now) b }
{
    if gives(rec, high) {
        return Tally {
            count: b.count + 1,
            signers: joins(n, u16_at(rec, 6) as u64, b.signers),
        };
    }
    b
}

// How many timeouts give a high vote, and who sent them.
fn count_backing(n: u64, rec: &[u8], count: usize, high: Vote) -> Tally
    requires { (n ≤ largest) × ((timeouts_head + timeout_length * count ≤ length rec.now) × (count < 2 ^ 62)) }
    ensures { result ≡ backing n high.view.0 high.name (map timeout_of (cut count (drop timeouts_head rec.now))) }
{
    let mut b = Tally {
        count: 0,
        signers: 0,
    };
    for slot in timeouts(rec, count) {
        b = backed_by(n, slot, high, b);
    }
    b
}

// The highest of k and the certificates carried in the timeouts that are left.
fn carried_best(slots: ChunksExact<'_, u8>, k: Certificate) -> Certificate
    requires { chunks_exact_size slots ≡ timeout_length }
    ensures { result ≡ each carried_by k (map timeout_of (slots_left slots.entry)) }
{
    let mut best = k;
    for slot in slots {
        best = Certificate::from(timeout(slot).carried).better(best);
    }
    best
}

// The certificate that the high vote of a timeout builds, if it is built and outranks k.
fn built_by(
    rec: &[u8],
    count: usize,
    slot: &[u8],
    settings: Settings,
    k: Certificate,
) -> Certificate
    requires { (replicas settings ≤ largest) × ((timeouts_head + timeout_length * count ≤ length rec.now) × ((count < 2 ^ 62) × (timeout_length ≤ length slot.now))) }
    ensures { result ≡ built_by settings (map timeout_of (cut count (drop timeouts_head rec.now))) (timeout_of slot.now) k }
{
    let high = vote(slot, 16);
    if high.view.0 == 0 {
        return k;
    }
    // Counted only if the certificate would outrank k, which its signers don't bear on.
    let name = high.name;
    let wanted = Certificate {
        block: false,
        view: high.view,
        name,
        signers: 0,
    };
    if !wanted.outranks(k) {
        return k;
    }
    let b = count_backing(settings.n(), rec, count, high);
    if b.count < settings.weak_quorum() {
        return k;
    }
    Certificate {
        signers: b.signers,
        ..wanted
    }
    .better(k)
}

fn built_best(rec: &[u8], count: usize, settings: Settings, k: Certificate) -> Certificate
    requires { (replicas settings ≤ largest) × ((timeouts_head + timeout_length * count ≤ length rec.now) × (count < 2 ^ 62)) }
    ensures { result ≡ each (built_by settings (map timeout_of (cut count (drop timeouts_head rec.now)))) k (map timeout_of (cut count (drop timeouts_head rec.now))) }
{
    let mut best = k;
    for slot in timeouts(rec, count) {
        best = built_by(rec, count, slot, settings, best);
    }
    best
}

// The safe certificate of the timeouts of a record of kind 6.
fn safe_of_timeouts(rec: &[u8], count: usize, settings: Settings) -> Certificate
    requires { (replicas settings ≤ largest) × ((timeouts_head + timeout_length * count ≤ length rec.now) × (count < 2 ^ 62)) }
    ensures { result ≡ safe_of_timeouts settings (map timeout_of (cut count (drop timeouts_head rec.now))) }
{
    let mut slots = timeouts(rec, count);
    let Some(first) = slots.next() else {
        return Certificate {
            block: true,
            view: View(0),
            name: [0u8; 32],
            signers: 0,
        };
    };
    let highest = carried_best(slots, timeout(first).carried.into());
    built_best(rec, count, settings, highest)
}

// The safe certificate of a progress certificate, of whatever content. A block certificate is its own.
pub fn safe_certificate(rec: &[u8], progress: Progress, settings: Settings) -> Certificate
    requires { (replicas settings ≤ largest) × Within rec.now progress }
    ensures { result ≡ safe_certificate settings (progress_means rec.now progress) }
{
    match progress {
        Progress::Block(b) => block_certificate(rec, b),
        Progress::Timeouts(t) => safe_of_timeouts(&rec[t.place..], t.count, settings),
    }
}
