// Whose timeout decided it (02, 2.3): the lowest sender of a timeout certificate without whose timeout the safe block would be another.
// A function of settings and a record; no replica is asked or touched.
// Promises: for any four numbers and any bytes, the answer of `decisive_call`; its laws stand in specs/Laws.antt. Rests on `settings`, `shape`, `judge` and `certificate`.
#![tactic(auto)]

ghost use Rattle.std.specs.Prelude.{◌≡◌, ◌+◌, ◌*◌, ◌≤◌, ◌<◌, length};
ghost use Rattle.settings.specs.Answer.{judge};
ghost use Rattle.settings.specs.Quorum.{largest, replicas, timeout_quorum};
ghost use Rattle.settings.specs.Refusal.{refused};
ghost use Rattle.wire.specs.Fields.{timeouts_head, timeout_length, kind_of, count_of};
ghost use Rattle.certificate.specs.Order.{Ascending};
ghost use Rattle.refusals.specs.Number.{first_of};
ghost use Rattle.decisive.specs.Decisive.{safe_block, decisive, form_rules, certificate_rules, record_rules, timeouts_in, decisive_call};
ghost use Rattle.decisive.specs.Reply.{reply_of, whose_of, judged, first_timeouts, left_out};

use certificate::good::timeouts_good;
use certificate::safe::safe_certificate;
use codec::num::{u16_at, u64_at};
use codec::put;
use settings::{Refusal, Settings, View, admit};
use shape::frame_bad;
use wire::read::{kind_at, timeouts};
use wire::{Kind, Progress, TimeoutCertificate, length};

// 01's number of the refusal; or 0, whether there is such a sender, and its number.
#[repr(C)]
#[derive(Clone, Copy)]
pub struct Decisive {
    pub refusal: u64,
    pub found: bool,
    pub sender: u64,
}

impl From<Result<Option<u64>, Refusal>> for Decisive {
    ghost from_gives = { λ r d. d ≡ reply_of (judged r) };

    fn from(answer: Result<Option<u64>, Refusal>) -> Decisive {
        match answer {
            Ok(Some(sender)) => Decisive {
                refusal: 0,
                found: true,
                sender,
            },
            Ok(None) => Decisive {
                refusal: 0,
                found: false,
                sender: 0,
            },
            Err(refusal) => Decisive {
                refusal: refusal.into(),
                found: false,
                sender: 0,
            },
        }
    }
}

// The safe block of the first `count` timeouts of a timeout certificate.
fn safe_block(rec: &[u8], count: usize, s: Settings) -> [u8; 32]
    requires { (replicas s ≤ largest) × (timeouts_head + timeout_length * count ≤ length rec.now) }
    ensures { result ≡ safe_block s (first_timeouts rec.now count) }
{
    let timeouts = TimeoutCertificate { place: 0, count };
    safe_certificate(rec, Progress::Timeouts(timeouts), s).name
}

// A certificate's timeouts but timeout i, into a region: those behind it stand in its place.
fn leave_out(rec: &[u8], count: usize, i: usize, rest: &mut [u8])
    requires { (count ≤ largest) × ((i < count) × ((timeouts_head + timeout_length * count ≤ length rec.now) × (timeouts_head + timeout_length * count ≤ length rest.old))) }
    ensures { rest.new ≡ left_out rec.now count i rest.old }
{
    let at = length::TIMEOUTS_HEAD + length::TIMEOUT * i;
    let next = at + length::TIMEOUT;
    let end = length::TIMEOUTS_HEAD + length::TIMEOUT * count;
    put(rest, length::TIMEOUTS_HEAD, &rec[length::TIMEOUTS_HEAD..at]);
    put(rest, at, &rec[next..end]);
}

// The first sender without whose timeout the safe block isn't `safe`.
fn first_to_change(rec: &[u8], count: usize, s: Settings, safe: [u8; 32]) -> Option<u64>
    requires { (replicas s ≤ largest) × ((count ≤ largest) × ((timeout_quorum s < count) × ((timeouts_head + timeout_length * count ≤ length rec.now)
        × (Ascending (replicas s) 0 (first_timeouts rec.now count) × (safe ≡ safe_block s (first_timeouts rec.now count)))))) }
    ensures { whose_of result ≡ decisive s (first_timeouts rec.now count) }
{
    let mut rest = [0u8; length::LONGEST_CERTIFICATE];
    for (i, slot) in timeouts(rec, count).enumerate() {
        leave_out(rec, count, i, &mut rest);
        if safe_block(&rest, count - 1, s) != safe {
            return Some(u16_at(slot, 6) as u64);
        }
    }
    None
}

// The lowest sender whose timeout decided; with no more timeouts than a certificate needs, none can be taken out.
fn lowest(rec: &[u8], count: usize, s: Settings) -> Option<u64>
    requires { (replicas s ≤ largest) × ((count ≤ largest) × ((timeouts_head + timeout_length * count ≤ length rec.now) × Ascending (replicas s) 0 (first_timeouts rec.now count))) }
    ensures { whose_of result ≡ decisive s (first_timeouts rec.now count) }
{
    if count as u64 <= s.timeout_quorum() {
        return None;
    }
    let safe = safe_block(rec, count, s);
    first_to_change(rec, count, s, safe)
}

// 3, 4 and 5. A kind other than 6 is asked only for its frame.
fn form_refusal(rec: &[u8], n: u64) -> Result<(), Refusal>
    ensures { refused result ≡ first_of (form_rules n rec.now) }
{
    if frame_bad(rec) {
        return Err(Refusal::Length);
    }
    if kind_at(rec, 4) != Some(Kind::TimeoutCertificate) {
        return Err(Refusal::Kind);
    }
    shape::check(rec, n)
}

// 6 to 9, of a timeout certificate that has its form.
fn certificate_refusal(rec: &[u8], n: u64, s: Settings) -> Result<(), Refusal>
    requires { (kind_of rec.now ≡ 6) × (timeouts_head + timeout_length * count_of rec.now ≤ length rec.now) }
    ensures { refused result ≡ first_of (certificate_rules s n rec.now) }
{
    if n <= u16_at(rec, 6) as u64 {
        return Err(Refusal::Party);
    }
    let view = View(u64_at(rec, 8));
    if view.0 == 0 {
        return Err(Refusal::ViewBelow);
    }
    if View::LAST <= view {
        return Err(Refusal::ViewAbove);
    }
    let count = u16_at(rec, 16) as usize;
    if timeouts_good(rec, TimeoutCertificate { place: 0, count }, s) {
        return Ok(());
    }
    Err(Refusal::Certificate)
}

// Of settings that were admitted the record is left to judge.
fn of_record(s: Settings, rec: &[u8]) -> Result<Option<u64>, Refusal>
    requires { replicas s ≤ largest }
    ensures { judged result ≡ judge (record_rules s (replicas s) rec.now) (decisive s (timeouts_in rec.now)) }
{
    let n = s.n();
    form_refusal(rec, n)?;
    certificate_refusal(rec, n, s)?;
    Ok(lowest(rec, u16_at(rec, 16) as usize, s))
}

// The settings are judged as an opening does, with an own number that every cluster has.
fn of_settings(f: u64, c: u64, k: u64, n: u64, rec: &[u8]) -> Result<Option<u64>, Refusal>
    ensures { judged result ≡ decisive_call f c k n rec.now }
{
    let s = admit(f, c, k, n, 0)?;
    of_record(s, rec)
}

// Any four numbers and any bytes.
pub fn whose(f: u64, c: u64, k: u64, n: u64, rec: &[u8]) -> Decisive
    ensures { result ≡ reply_of (decisive_call f c k n rec.now) }
{
    of_settings(f, c, k, n, rec).into()
}
