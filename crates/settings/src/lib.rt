// The settings of a cluster: how many replicas it has, its five quorums, and the tests that opening makes of them and of the leader list.
// Promises: each function returns what 01's formula or 02's rule says, for every input; no sum wraps and no call is refused by a `requires`.
// Rests on nothing but the language's library.
#![tactic(auto)]

ghost use Rattle.std.specs.Prelude.{◌≡◌};
ghost use Rattle.settings.specs.Quorum.{replicas, slack, block_quorum, weak_quorum, timeout_quorum, slow_quorum, fast_quorum};
ghost use Rattle.settings.specs.Opening.{opening, has_from, bad_leaders};
ghost use Rattle.settings.specs.Refusal.{answer};

pub mod refusal;

pub use refusal::Refusal;

// A view number. Views and heights are types of their own, so that no code compares or adds one to the other.
#[repr(C)]
#[derive(Clone, Copy, PartialEq, Eq, PartialOrd, Ord)]
pub struct View(pub u64);

impl View {
    // The last view: views stay at or below 2^62.
    pub const LAST: View = View(0x4000_0000_0000_0000);
}

// A block's height: the number of its ancestors.
#[repr(C)]
#[derive(Clone, Copy, PartialEq, Eq, PartialOrd, Ord)]
pub struct Height(pub u64);

impl Height {
    // The largest height: heights stay at or below 2^62.
    pub const LAST: Height = Height(0x4000_0000_0000_0000);
}

// 01: f Byzantine replicas, c more that may stop, and k. A width of 16 bits holds whatever a cluster needs, and no formula can wrap.
#[derive(Clone, Copy)]
pub struct Settings {
    pub f: u16,
    pub c: u16,
    pub k: u16,
}

impl Settings {
    // The largest number of replicas in a cluster.
    pub const LARGEST: u64 = 32;

    pub fn n(self) -> u64
        ensures { result ≡ replicas self }
    {
        3 * (self.f as u64) + 2 * (self.c as u64) + (self.k as u64) + 1
    }

    pub fn p(self) -> u64
        ensures { result ≡ slack self }
    {
        ((self.c as u64) + (self.k as u64)) / 2
    }

    // 01's (n + f + 1) / 2 rounded up, with no branch on whether the sum is odd (02, 2.4).
    pub fn block_quorum(self) -> u64
        ensures { result ≡ block_quorum self }
    {
        self.slow_quorum() + ((self.k as u64) + 1) / 2
    }

    pub fn weak_quorum(self) -> u64
        ensures { result ≡ weak_quorum self }
    {
        (self.f as u64) + self.p() + 1
    }

    pub fn timeout_quorum(self) -> u64
        ensures { result ≡ timeout_quorum self }
    {
        self.n() - (self.f as u64) - (self.c as u64)
    }

    pub fn slow_quorum(self) -> u64
        ensures { result ≡ slow_quorum self }
    {
        2 * (self.f as u64) + (self.c as u64) + 1
    }

    pub fn fast_quorum(self) -> u64
        ensures { result ≡ fast_quorum self }
    {
        self.n() - self.p()
    }
}

// Any five numbers may come in. The first test keeps the sums small; settings that it turns away have n over the largest.
pub fn admit(f: u64, c: u64, k: u64, n: u64, own: u64) -> Result<Settings, Refusal>
    ensures { answer result ≡ opening f c k n own }
{
    if Settings::LARGEST < f || Settings::LARGEST < c || Settings::LARGEST < k {
        return Err(Refusal::Settings);
    }
    let settings = Settings {
        f: f as u16,
        c: c as u16,
        k: k as u16,
    };
    if n != settings.n() || Settings::LARGEST < n || n <= own {
        return Err(Refusal::Settings);
    }
    Ok(settings)
}

// A leader list has at most so many entries.
pub const MOST_LEADERS: usize = 64;

// An entry of the list is no replica of a cluster of n.
fn has_from(n: u64, leaders: &[u8]) -> bool
    ensures { result ≡ has_from n leaders.now }
{
    for &leader in leaders {
        if n <= leader as u64 {
            return true;
        }
    }
    false
}

// A leader list that opening refuses. The lengths are asked first: so no more than 64 entries are ever looked at.
pub fn bad_leaders(n: u64, leaders: &[u8]) -> bool
    ensures { result ≡ bad_leaders n leaders.now }
{
    leaders.is_empty() || MOST_LEADERS < leaders.len() || has_from(n, leaders)
}
