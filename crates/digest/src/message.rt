// A message: its blocks, its padding, its digest.
ghost use Rattle.std.specs.Prelude.{◌≡◌, ◌+◌, ◌*◌, ◌-◌, ◌%◌, ◌≤◌, ◌++◌, length, replicate};
ghost use Rattle.codec.specs.Bytes.{patch};
ghost use Rattle.digest.specs.Sha256.{H⁰, compress, absorb, padding, be_bytes, digest, sha256};

use crate::Words;
use crate::block::{compress, start};
use codec::put;

// The last block: the number of a message's bits stands in its last 8 bytes.
fn close(h: Words, mut block: [u8; 64], n: usize) -> Words
    ensures { result ≡ compress h (patch block 56 (be_bytes 8 (8 * n))) }
{
    put(&mut block, 56, &((n as u64) << 3).to_be_bytes());
    compress(h, &block)
}

// Less than a block is left of a message of n bytes.
fn last(h: Words, s: &[u8], n: usize) -> Words
    requires { length s.now ≡ n % 64 }
    ensures { result ≡ absorb h (s.now ++ padding n) }
{
    let size = s.len();
    let mut block = [0u8; 64];
    put(&mut block, 0, s);
    block[size] = 0x80;
    if size < 56 {
        return close(h, block, n);
    }
    let v = compress(h, &block);
    close(v, [0u8; 64], n)
}

// What is left of a message of n bytes, at a block's start.
fn finish(h: Words, s: &[u8], n: usize) -> Words
    requires { length s.now % 64 ≡ n % 64 }
    ensures { result ≡ absorb h (s.now ++ padding n) }
{
    let blocks = s.chunks_exact(64);
    let rest = blocks.remainder();
    let mut v = h;
    for block in blocks {
        v = compress(v, block);
    }
    last(v, rest, n)
}

fn digest(h: Words) -> [u8; 32]
    ensures { result ≡ digest h }
{
    let words = [h.a, h.b, h.c, h.d, h.e, h.f, h.g, h.h];
    let mut r = [0u8; 32];
    for i in 0..8 {
        put(&mut r, 4 * i, &words[i].to_be_bytes());
    }
    r
}

pub fn sha256(message: &[u8]) -> [u8; 32]
    ensures { result ≡ sha256 message.now }
{
    digest(finish(start(), message, message.len()))
}

// The block that begins with front and rest.
fn meet(front: &[u8], rest: &[u8]) -> [u8; 64]
    requires { length front.now + length rest.now ≤ 64 }
    ensures { result ≡ (front.now ++ rest.now) ++ replicate (64 - (length front.now + length rest.now)) 0 }
{
    let mut block = [0u8; 64];
    put(&mut block, 0, front);
    put(&mut block, front.len(), rest);
    block
}

fn short(front: &[u8], rest: &[u8]) -> [u8; 32]
    requires { length front.now + length rest.now ≤ 64 }
    ensures { result ≡ sha256 (front.now ++ rest.now) }
{
    let n = front.len() + rest.len();
    let block = meet(front, rest);
    sha256(&block[..n])
}

fn long(front: &[u8], rest: &[u8]) -> [u8; 32]
    requires { (length front.now ≤ 64) × (64 ≤ length front.now + length rest.now) }
    ensures { result ≡ sha256 (front.now ++ rest.now) }
{
    let n = front.len() + rest.len();
    let room = 64 - front.len();
    let block = meet(front, &rest[..room]);
    let h = compress(start(), &block);
    digest(finish(h, &rest[room..], n))
}

// The digest of front ++ rest, where the front is at most a block: only the block in which the two meet is copied.
pub fn joined(front: &[u8], rest: &[u8]) -> [u8; 32]
    requires { length front.now ≤ 64 }
    ensures { result ≡ sha256 (front.now ++ rest.now) }
{
    if rest.len() < 64 - front.len() {
        return short(front, rest);
    }
    long(front, rest)
}
