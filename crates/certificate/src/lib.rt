// Certificates: their order, adopting, when one is good (place 9), and the safe certificate of a timeout certificate.
// Promises: each function computes its definition in specs/, for every input; the functions on records ask only that the bytes are there.
// Rests on `settings`, `codec` and `wire`.
#![tactic(auto)]

pub mod good;
pub mod safe;

ghost use Rattle.std.specs.Prelude.{◌≡◌};
ghost use Rattle.certificate.specs.Rank.{outranks, adopted, highest, carried_certificate};
ghost use Rattle.certificate.specs.Good.{is_good, signer_count, signers_needed};
ghost use Rattle.certificate.specs.Safe.{better};

use codec::name::{is_zero, less};
use settings::{Settings, View};
use wire::{Carried, Kind};

// A block certificate, or else a weak one.
#[derive(Clone, Copy)]
pub struct Certificate {
    pub block: bool,
    pub view: View,
    pub name: [u8; 32],
    pub signers: u64,
}

// The lock is a block certificate, the best weak one a weak certificate; its view is 0 where there is none.
#[derive(Clone, Copy)]
pub struct Locks {
    pub lock: Certificate,
    pub weak: Certificate,
}

// How many back something, and which of the replicas.
#[derive(Clone, Copy)]
pub struct Tally {
    pub count: u64,
    pub signers: u64,
}

// The certificate inside a timeout.
impl From<Carried> for Certificate {
    ghost from_gives = { λ c k. k ≡ carried_certificate c };

    #[tactic(auto, unfolding(crate::specs::Rank::carried_certificate))]
    fn from(c: Carried) -> Certificate {
        let name = c.name;
        Certificate {
            block: c.kind == Kind::BlockCertificate as u16,
            view: c.view,
            name,
            signers: c.signers,
        }
    }
}

impl Certificate {
    #[tactic(auto, unfolding(crate::specs::Rank::outranks))]
    pub fn outranks(self, other: Certificate) -> bool
        ensures { result ≡ outranks self other }
    {
        if self.view != other.view {
            return other.view < self.view;
        }
        if self.block != other.block {
            return self.block;
        }
        less(self.name, other.name)
    }

    // Of two candidates the later one only if it outranks the earlier.
    #[tactic(auto, unfolding(crate::specs::Safe::better))]
    fn better(self, earlier: Certificate) -> Certificate
        ensures { result ≡ better self earlier }
    {
        if self.outranks(earlier) {
            self
        } else {
            earlier
        }
    }

    #[tactic(auto, unfolding(crate::specs::Rank::adopted, crate::specs::Safe::better))]
    pub fn adopt(self, locks: Locks) -> Locks
        ensures { result ≡ adopted self locks }
    {
        if self.block {
            let lock = self.better(locks.lock);
            Locks { lock, ..locks }
        } else {
            let weak = self.better(locks.weak);
            Locks { weak, ..locks }
        }
    }

    // Enough signers, or the genesis certificate.
    #[tactic(auto, unfolding(crate::specs::Good::is_good))]
    pub fn is_good(self, settings: Settings) -> bool
        ensures { result ≡ is_good settings self }
    {
        if self.view.0 == 0 {
            return self.block && self.signers == 0 && is_zero(self.name);
        }
        signers_needed(settings, self.block) <= signer_count(self.signers)
    }
}

impl Locks {
    // What a timeout carries: the higher of the lock and the best weak certificate.
    #[tactic(auto, unfolding(crate::specs::Rank::highest, crate::specs::Safe::better))]
    pub fn highest(self) -> Certificate
        ensures { result ≡ highest self }
    {
        self.weak.better(self.lock)
    }
}

// How many replicas are in a signer set.
pub fn signer_count(signers: u64) -> u64
    ensures { result ≡ signer_count signers }
{
    signers.count_ones() as u64
}

#[tactic(auto, unfolding(crate::specs::Good::signers_needed))]
fn signers_needed(settings: Settings, block: bool) -> u64
    ensures { result ≡ signers_needed settings block }
{
    if block {
        settings.block_quorum()
    } else {
        settings.weak_quorum()
    }
}
