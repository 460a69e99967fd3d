// The replica's counters: one record that every call updates, lent by the host. The calls of `replica` copy it out, the functions here make the
// next one by value, and the calls store that whole. Promises: each function leaves what its definition in specs/ says.
// Any bits are a value of it: numbers and names only. Rests on `settings`, `wire`, `certificate` and `blocks`.
#![tactic(auto)]

ghost use Rattle.std.specs.Prelude.{◌≡◌};
ghost use Rattle.counters.specs.Counters.{opened, certificate_of, signed_of, locks_of, with_locks, adopting, entering, timing, voting, releasing};

use blocks::Block;
use certificate::{Certificate, Locks};
use settings::{Height, View};
use wire::Vote;

// A certificate whose kind is said by where it stands.
#[repr(C)]
#[derive(Clone, Copy)]
pub struct Signed {
    pub view: View,
    pub name: [u8; 32],
    pub signers: u64,
}

// 01: view, timed, high vote, lock, best weak, tip. No high vote and no best weak certificate are those of view 0.
#[repr(C)]
#[derive(Clone, Copy)]
pub struct Counters {
    pub view: View,
    pub timed: View,
    pub high: Vote,
    pub lock: Signed,
    pub weak: Signed,
    pub tip: Block,
}

// What opening leaves: view 1, timed 0, no high vote, the genesis certificate as lock, no best weak, genesis as tip.
#[tactic(auto, unfolding(crate::specs::Counters::opened))]
pub fn opened() -> Counters
    ensures { result ≡ opened }
{
    let z = [0u8; 32];
    let none = Signed {
        view: View(0),
        name: z,
        signers: 0,
    };
    Counters {
        view: View(1),
        timed: View(0),
        high: Vote {
            view: View(0),
            name: z,
        },
        lock: none,
        weak: none,
        tip: Block {
            name: z,
            parent: z,
            height: Height(0),
        },
    }
}

// The lock is a block certificate, the best weak one is weak.
#[tactic(auto, unfolding(crate::specs::Counters::certificate_of))]
fn certificate_of(block: bool, s: Signed) -> Certificate
    ensures { result ≡ certificate_of block s }
{
    let name = s.name;
    Certificate {
        block,
        view: s.view,
        name,
        signers: s.signers,
    }
}

impl From<Certificate> for Signed {
    ghost from_gives = { λ k s. s ≡ signed_of k };

    #[tactic(auto, unfolding(crate::specs::Counters::signed_of))]
    fn from(k: Certificate) -> Signed {
        let name = k.name;
        Signed {
            view: k.view,
            name,
            signers: k.signers,
        }
    }
}

#[tactic(auto, unfolding(crate::specs::Counters::locks_of))]
pub fn locks(c: Counters) -> Locks
    ensures { result ≡ locks_of c }
{
    Locks {
        lock: certificate_of(true, c.lock),
        weak: certificate_of(false, c.weak),
    }
}

#[tactic(auto, unfolding(crate::specs::Counters::with_locks))]
fn with_locks(c: Counters, locks: Locks) -> Counters
    ensures { result ≡ with_locks c locks }
{
    Counters {
        lock: locks.lock.into(),
        weak: locks.weak.into(),
        ..c
    }
}

// A certificate is adopted.
#[tactic(auto, unfolding(crate::specs::Counters::adopting))]
pub fn adopting(c: Counters, k: Certificate) -> Counters
    ensures { result ≡ adopting c k }
{
    with_locks(c, k.adopt(locks(c)))
}

// A view is entered.
#[tactic(auto, unfolding(crate::specs::Counters::entering))]
pub fn entering(c: Counters, view: View) -> Counters
    ensures { result ≡ entering c view }
{
    Counters { view, ..c }
}

// A timeout of a view has been sent.
#[tactic(auto, unfolding(crate::specs::Counters::timing))]
pub fn timing(c: Counters, view: View) -> Counters
    ensures { result ≡ timing c view }
{
    Counters { timed: view, ..c }
}

// A vote becomes the high vote.
#[tactic(auto, unfolding(crate::specs::Counters::voting))]
pub fn voting(c: Counters, vote: Vote) -> Counters
    ensures { result ≡ voting c vote }
{
    Counters { high: vote, ..c }
}

// A released block becomes the tip.
#[tactic(auto, unfolding(crate::specs::Counters::releasing))]
pub fn releasing(c: Counters, tip: Block) -> Counters
    ensures { result ≡ releasing c tip }
{
    Counters { tip, ..c }
}
