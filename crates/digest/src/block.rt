// One block: the message schedule and the rounds (6.2.2).
ghost use Rattle.std.specs.Prelude.{◌≡◌, ℕ, List, ◌+◌, ◌≤◌, ◌<◌, length};
ghost use Rattle.digest.specs.Sha256.{K, H⁰, T₁, T₂, round, plus, next, compress};
ghost use Rattle.digest.specs.Turns.{Makes, run, turns};

use crate::Words;
use crate::word::{big0, big1, ch, maj, small0, small1, word_at};

fn constants() -> [u32; 64]
    ensures { result ≡ K }
{
    [
        0x428a2f98, 0x71374491, 0xb5c0fbcf, 0xe9b5dba5, 0x3956c25b, 0x59f111f1, 0x923f82a4,
        0xab1c5ed5, 0xd807aa98, 0x12835b01, 0x243185be, 0x550c7dc3, 0x72be5d74, 0x80deb1fe,
        0x9bdc06a7, 0xc19bf174, 0xe49b69c1, 0xefbe4786, 0x0fc19dc6, 0x240ca1cc, 0x2de92c6f,
        0x4a7484aa, 0x5cb0a9dc, 0x76f988da, 0x983e5152, 0xa831c66d, 0xb00327c8, 0xbf597fc7,
        0xc6e00bf3, 0xd5a79147, 0x06ca6351, 0x14292967, 0x27b70a85, 0x2e1b2138, 0x4d2c6dfc,
        0x53380d13, 0x650a7354, 0x766a0abb, 0x81c2c92e, 0x92722c85, 0xa2bfe8a1, 0xa81a664b,
        0xc24b8b70, 0xc76c51a3, 0xd192e819, 0xd6990624, 0xf40e3585, 0x106aa070, 0x19a4c116,
        0x1e376c08, 0x2748774c, 0x34b0bcb5, 0x391c0cb3, 0x4ed8aa4a, 0x5b9cca4f, 0x682e6ff3,
        0x748f82ee, 0x78a5636f, 0x84c87814, 0x8cc70208, 0x90befffa, 0xa4506ceb, 0xbef9a3f7,
        0xc67178f2,
    ]
}

pub fn start() -> Words
    ensures { result ≡ H⁰ }
{
    Words {
        a: 0x6a09e667,
        b: 0xbb67ae85,
        c: 0x3c6ef372,
        d: 0xa54ff53a,
        e: 0x510e527f,
        f: 0x9b05688c,
        g: 0x1f83d9ab,
        h: 0x5be0cd19,
    }
}

fn next(w: &[u32; 64], t: usize) -> u32
    requires { (16 ≤ t) × (t < 64) }
    ensures { result ≡ next t w.now }
{
    small1(w[t - 2])
        .wrapping_add(w[t - 7])
        .wrapping_add(small0(w[t - 15]))
        .wrapping_add(w[t - 16])
}

// In this order, not the standard's, the first two sums need neither Ch nor Σ₁: they can be computed at the same time, once compiled.
fn t1(v: Words, k: u32, w: u32) -> u32
    ensures { result ≡ T₁ v k w }
{
    v.h.wrapping_add(k)
        .wrapping_add(w)
        .wrapping_add(ch(v.e, v.f, v.g))
        .wrapping_add(big1(v.e))
}

fn t2(v: Words) -> u32
    ensures { result ≡ T₂ v }
{
    big0(v.a).wrapping_add(maj(v.a, v.b, v.c))
}

fn round(v: Words, k: u32, w: u32) -> Words
    ensures { result ≡ round v k w }
{
    let x = t1(v, k, w);
    let y = t2(v);
    Words {
        a: x.wrapping_add(y),
        b: v.a,
        c: v.b,
        d: v.c,
        e: v.d.wrapping_add(x),
        f: v.e,
        g: v.f,
        h: v.g,
    }
}

fn plus(x: Words, y: Words) -> Words
    ensures { result ≡ plus x y }
{
    Words {
        a: x.a.wrapping_add(y.a),
        b: x.b.wrapping_add(y.b),
        c: x.c.wrapping_add(y.c),
        d: x.d.wrapping_add(y.d),
        e: x.e.wrapping_add(y.e),
        f: x.f.wrapping_add(y.f),
        g: x.g.wrapping_add(y.g),
        h: x.h.wrapping_add(y.h),
    }
}

// Eight rounds from round t on, after which each working variable is back in its place. `word` makes the word of a round out of those before it.
fn eight<F: Fn(&[u32; 64], usize) -> u32>(
    mut v: Words,
    w: &mut [u32; 64],
    k: &[u32; 64],
    t: usize,
    word: F,
) -> Words
    requires inside { t + 8 ≤ 64 }
    requires callable { (s : _) (i : ℕ) → t ≤ i → i < t + 8 → F.pre word s i }
    ensures { (f : ℕ → List ℕ → ℕ) → Makes (F.post word) f t → run w.new result ≡ turns f k.now t 8 (run w.old v) }
{
    for i in 0..8 {
        let x = word(w, t + i);
        w[t + i] = x;
        v = round(v, k[t + i], x);
    }
    v
}

// Schedule and rounds go together, eight rounds a turn, which is faster than a loop for each. The constants are a local: an element of a `const` would
// have all 64 stored again in every round.
pub fn compress(h: Words, m: &[u8]) -> Words
    requires { 64 ≤ length m.now }
    ensures { result ≡ compress h m.now }
{
    let k = constants();
    let mut w = [0u32; 64];
    let mut v = h;
    for t in (0..16).step_by(8) {
        v = eight(v, &mut w, &k, t, |_, i| word_at(m, 4 * i));
    }
    for t in (16..64).step_by(8) {
        v = eight(v, &mut w, &k, t, next);
    }
    plus(v, h)
}
