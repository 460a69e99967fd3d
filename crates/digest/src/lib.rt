// SHA-256 (FIPS 180-4), and the names of blocks (02, 2.5).
// Promises: `sha256`, `name_of`, `too_long` and `name` are the definitions of `specs/` for every input, without a `requires`; what is proved of the definitions stands in
// specs/Laws.antt: that they are the standard's, and that a digest is 32 bytes.
// Nothing is allocated; of a message only its end is copied, and the block in which its two parts meet. Rests on `codec`, and on `settings` for what an answer is.
#![tactic(auto)]

mod block;
mod message;
mod word;

ghost use Rattle.std.specs.Prelude.{◌≡◌, ◌++◌};
ghost use Rattle.settings.specs.Refusal.{answer};
ghost use Rattle.codec.specs.Bytes.{le_bytes};
ghost use Rattle.digest.specs.Name.{too_long, name_of, name_call, reply_of};

use codec::num::put_u64;
use codec::put;
use message::joined;
pub use message::sha256;
use settings::Refusal;

// The longest contents of a block.
pub const LONGEST_CONTENTS: usize = 4096;

// The eight words of a hash value, and the working variables a to h.
#[derive(Clone, Copy)]
pub struct Words {
    pub a: u32,
    pub b: u32,
    pub c: u32,
    pub d: u32,
    pub e: u32,
    pub f: u32,
    pub g: u32,
    pub h: u32,
}

// What a C caller gets of a name call: 0 and the name, or 02's number of the refusal and the zero name.
#[repr(C)]
#[derive(Clone, Copy)]
pub struct Named {
    pub refusal: u64,
    pub name: [u8; 32],
}

// What is digested before a block's contents.
fn front(parent: [u8; 32], height: u64) -> [u8; 40]
    ensures { result ≡ parent ++ le_bytes 8 height }
{
    let mut r = [0u8; 40];
    put(&mut r, 0, &parent);
    put_u64(&mut r, 32, height);
    r
}

// The name of a block, whatever its contents' length.
pub fn name_of(parent: [u8; 32], height: u64, contents: &[u8]) -> [u8; 32]
    ensures { result ≡ name_of parent height contents.now }
{
    let head = front(parent, height);
    joined(&head, contents)
}

pub fn too_long(contents: &[u8]) -> bool
    ensures { result ≡ too_long contents.now }
{
    LONGEST_CONTENTS < contents.len()
}

// The name call. It takes any height.
pub fn name(parent: [u8; 32], height: u64, contents: &[u8]) -> Result<[u8; 32], Refusal>
    ensures { answer result ≡ name_call parent height contents.now }
{
    if too_long(contents) {
        return Err(Refusal::ContentsTooLong);
    }
    Ok(name_of(parent, height, contents))
}

impl From<Result<[u8; 32], Refusal>> for Named {
    ghost from_gives = { λ named reply. reply ≡ reply_of (answer named) };

    fn from(named: Result<[u8; 32], Refusal>) -> Named {
        match named {
            Ok(name) => Named { refusal: 0, name },
            Err(refusal) => Named {
                refusal: u64::from(refusal),
                name: [0u8; 32],
            },
        }
    }
}
