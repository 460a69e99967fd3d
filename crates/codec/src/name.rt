// Names: 32 bytes, compared byte by byte.
#![tactic(auto, using(crate::proofs::Library::pointwise_same, crate::proofs::Library::cmp_less))]

ghost use Rattle.std.specs.Prelude.{◌≡◌, ◌+◌, ◌≤◌, length};
ghost use Rattle.codec.specs.Bytes.{part};
ghost use Rattle.codec.specs.Names.{same_bytes, less_bytes, zero_name};

use crate::name_at;

pub fn same(a: [u8; 32], b: [u8; 32]) -> bool
    ensures { result ≡ same_bytes a b }
{
    a == b
}

// Through `cmp`, which passes equal bytes eight at a time: `<` takes them one by one.
pub fn less(a: [u8; 32], b: [u8; 32]) -> bool
    ensures { result ≡ less_bytes a b }
{
    a.cmp(&b).is_lt()
}

// The name at a place of a region is this one.
pub fn is_at(mem: &[u8], at: usize, name: [u8; 32]) -> bool
    requires { at + 32 ≤ length mem.now }
    ensures { result ≡ same_bytes (part mem.now at 32) name }
{
    name_at(mem, at) == name
}

// The all-zero name is genesis.
pub fn is_zero(a: [u8; 32]) -> bool
    ensures { result ≡ same_bytes a zero_name }
{
    a == [0u8; 32]
}

// Any two slices.
pub fn same_bytes(x: &[u8], y: &[u8]) -> bool
    ensures { result ≡ same_bytes x.now y.now }
{
    x == y
}
