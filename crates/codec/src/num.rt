// Little-endian numbers, and big-endian ones to read.
#![tactic(auto, using(crate::proofs::Library::numbers))]

ghost use Rattle.std.specs.Prelude.{◌≡◌, ◌+◌, ◌≤◌, length};
ghost use Rattle.codec.specs.Bytes.{part, patch, le_nat, be_nat, le_bytes};

use crate::{array_at, put};

// The number whose little-endian bytes are s.
pub fn le(s: &[u8]) -> u64
    requires { length s.now ≤ 8 }
    ensures { result ≡ le_nat s.now }
{
    let mut bytes = [0u8; 8];
    bytes[..s.len()].copy_from_slice(s);
    u64::from_le_bytes(bytes)
}

// The number whose big-endian bytes are s.
fn be(s: &[u8]) -> u64
    requires { length s.now ≤ 8 }
    ensures { result ≡ be_nat s.now }
{
    let mut bytes = [0u8; 8];
    bytes[8 - s.len()..].copy_from_slice(s);
    u64::from_be_bytes(bytes)
}

// The k lowest bytes of x, at place at.
pub fn put_le(mem: &mut [u8], at: usize, k: usize, x: u64)
    requires { at + k ≤ length mem.old }
    ensures { mem.new ≡ patch mem.old at (le_bytes k x) }
{
    let mut rest = x;
    for byte in &mut mem[at..at + k] {
        *byte = (rest % 256) as u8;
        rest /= 256;
    }
}

// The number in the k bytes from place at on.
pub fn le_at(mem: &[u8], at: usize, k: usize) -> u64
    requires { (k ≤ 8) × (at + k ≤ length mem.now) }
    ensures { result ≡ le_nat (part mem.now at k) }
{
    le(&mem[at..at + k])
}

// The big-endian number in the k bytes from place at on.
pub fn be_at(mem: &[u8], at: usize, k: usize) -> u64
    requires { (k ≤ 8) × (at + k ≤ length mem.now) }
    ensures { result ≡ be_nat (part mem.now at k) }
{
    be(&mem[at..at + k])
}

pub fn u16_at(mem: &[u8], at: usize) -> u16
    requires { at + 2 ≤ length mem.now }
    ensures { result ≡ le_nat (part mem.now at 2) }
{
    u16::from_le_bytes(array_at(mem, at))
}

pub fn u32_at(mem: &[u8], at: usize) -> u32
    requires { at + 4 ≤ length mem.now }
    ensures { result ≡ le_nat (part mem.now at 4) }
{
    u32::from_le_bytes(array_at(mem, at))
}

pub fn u64_at(mem: &[u8], at: usize) -> u64
    requires { at + 8 ≤ length mem.now }
    ensures { result ≡ le_nat (part mem.now at 8) }
{
    u64::from_le_bytes(array_at(mem, at))
}

pub fn put_u16(mem: &mut [u8], at: usize, x: u16)
    requires { at + 2 ≤ length mem.old }
    ensures { mem.new ≡ patch mem.old at (le_bytes 2 x) }
{
    put(mem, at, &x.to_le_bytes());
}

pub fn put_u32(mem: &mut [u8], at: usize, x: u32)
    requires { at + 4 ≤ length mem.old }
    ensures { mem.new ≡ patch mem.old at (le_bytes 4 x) }
{
    put(mem, at, &x.to_le_bytes());
}

pub fn put_u64(mem: &mut [u8], at: usize, x: u64)
    requires { at + 8 ≤ length mem.old }
    ensures { mem.new ≡ patch mem.old at (le_bytes 8 x) }
{
    put(mem, at, &x.to_le_bytes());
}
