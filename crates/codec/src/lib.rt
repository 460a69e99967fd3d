// Bytes of a lent region: parts read and replaced, numbers, names.
// Promises: what each function reads or leaves is `part`, `patch`, `le_nat`, `be_nat` or `le_bytes` of its input. A `requires` asks only that the
// place lies inside the region. Rests on nothing but the language's library.
#![tactic(auto)]

pub mod name;
pub mod num;

ghost use Rattle.std.specs.Prelude.{◌≡◌, ◌+◌, ◌≤◌, length, replicate};
ghost use Rattle.codec.specs.Bytes.{part, patch};

// The bytes v, from place at on.
pub fn put(mem: &mut [u8], at: usize, v: &[u8])
    requires { at + length v.now ≤ length mem.old }
    ensures { mem.new ≡ patch mem.old at v.now }
{
    for i in 0..v.len() {
        mem[at + i] = v[i];
    }
}

// n zero bytes from place at on.
#[tactic(auto, using(crate::proofs::Library::written))]
pub fn clear(mem: &mut [u8], at: usize, n: usize)
    requires { at + n ≤ length mem.old }
    ensures { mem.new ≡ patch mem.old at (replicate n 0) }
{
    mem[at..at + n].fill(0);
}

// The N bytes from place at on: names and numbers of every width are read through it.
#[tactic(auto, using(crate::proofs::Laws::part_lent))]
fn array_at<const N: usize>(mem: &[u8], at: usize) -> [u8; N]
    requires { at + N ≤ length mem.now }
    ensures { result ≡ part mem.now at N }
{
    let mut bytes = [0u8; N];
    bytes.copy_from_slice(&mem[at..at + N]);
    bytes
}

pub fn name_at(mem: &[u8], at: usize) -> [u8; 32]
    requires { at + 32 ≤ length mem.now }
    ensures { result ≡ part mem.now at 32 }
{
    array_at(mem, at)
}

pub fn put_name(mem: &mut [u8], at: usize, name: [u8; 32])
    requires { at + 32 ≤ length mem.old }
    ensures { mem.new ≡ patch mem.old at name }
{
    put(mem, at, &name);
}
