// The place 9: when a certificate, a timeout and a timeout certificate are good.
ghost use Rattle.std.specs.Prelude.{◌≡◌, map, ◌+◌, ◌*◌, ◌≤◌, length, drop};
ghost use Rattle.wire.specs.declared.Progress.TheVariants.{Block, Timeouts};
ghost use Rattle.wire.specs.Fields.{name_of, cut, timeout_length, timeouts_head};
ghost use Rattle.wire.specs.Content.{timeout_of, progress_means, Within};
ghost use Rattle.certificate.specs.Rank.{block_certificate};
ghost use Rattle.certificate.specs.Good.{timeout_good, all, progress_good};

use crate::Certificate;
use codec::name_at;
use codec::num::u64_at;
use settings::Settings;
use wire::read::{timeout, timeouts};
use wire::{BlockCertificate, Progress, TimeoutCertificate};

#[tactic(auto, unfolding(crate::specs::Good::timeout_good))]
pub fn timeout_good(rec: &[u8], settings: Settings) -> bool
    requires { timeout_length ≤ length rec.now }
    ensures { result ≡ timeout_good settings (timeout_of rec.now) }
{
    let t = timeout(rec);
    Certificate::from(t.carried).is_good(settings)
        && t.carried.view <= t.view
        && t.high.view <= t.view
}

fn all_good(rec: &[u8], count: usize, settings: Settings) -> bool
    requires { timeouts_head + timeout_length * count ≤ length rec.now }
    ensures { result ≡ all (timeout_good settings) (map timeout_of (cut count (drop timeouts_head rec.now))) }
{
    timeouts(rec, count).all(|slot| timeout_good(slot, settings))
}

// The block certificate that stands in a record: its numbers, and the name beside them.
pub fn block_certificate(rec: &[u8], b: BlockCertificate) -> Certificate
    requires { Within rec.now (Block b) }
    ensures { result ≡ block_certificate b.view.0 (name_of (drop b.place rec.now)) b.signers }
{
    Certificate {
        block: true,
        view: b.view,
        name: name_at(rec, b.place + 16),
        signers: b.signers,
    }
}

// Kind 6: of a view from 1 on, and enough timeouts, all of them good.
pub fn timeouts_good(rec: &[u8], t: TimeoutCertificate, settings: Settings) -> bool
    requires { Within rec.now (Timeouts t) }
    ensures { result ≡ progress_good settings (progress_means rec.now (Timeouts t)) }
{
    u64_at(rec, t.place + 8) != 0
        && settings.timeout_quorum() <= t.count as u64
        && all_good(&rec[t.place..], t.count, settings)
}

// A progress certificate, as it was read off its record.
pub fn progress_good(rec: &[u8], progress: Progress, settings: Settings) -> bool
    requires { Within rec.now progress }
    ensures { result ≡ progress_good settings (progress_means rec.now progress) }
{
    match progress {
        Progress::Block(b) => block_certificate(rec, b).is_good(settings),
        Progress::Timeouts(t) => timeouts_good(rec, t, settings),
    }
}
