// Records as bytes: the definitions of their shape, content and bytes; readers of fields; writers.
// Promises: a field is the number or the bytes that stand at 01's place; what a writer leaves is the region with the record's bytes in it;
// what is written reads back to the same content, and no other bytes read as it (proofs/ReadBack.antt). A `requires` asks only that the
// record has its kind's length, or that the region has room. Rests on `codec` and `settings`.
#![tactic(auto)]

pub mod length;
pub mod read;
pub mod write;

ghost use Rattle.std.specs.Prelude.{◌≡◌};
ghost use Rattle.wire.specs.Kinds.{number, Decodes};

use settings::{Height, View};

// The kinds of records, by their numbers in a header. A weak certificate is no record of its own: a timeout carries it.
#[derive(Clone, Copy, PartialEq, Eq)]
pub enum Kind {
    Vote = 1,
    Commit = 2,
    BlockCertificate = 3,
    WeakCertificate = 4,
    Timeout = 5,
    TimeoutCertificate = 6,
    Proposal = 7,
    Block = 8,
    Release = 9,
}

// A number that no kind has.
#[derive(Clone, Copy, PartialEq, Eq)]
pub struct UnknownKind(pub u16);

impl TryFrom<u16> for Kind {
    type Error = UnknownKind;

    ghost try_from_gives = { Decodes };

    fn try_from(number: u16) -> Result<Self, UnknownKind> {
        match number {
            1 => Ok(Kind::Vote),
            2 => Ok(Kind::Commit),
            3 => Ok(Kind::BlockCertificate),
            4 => Ok(Kind::WeakCertificate),
            5 => Ok(Kind::Timeout),
            6 => Ok(Kind::TimeoutCertificate),
            7 => Ok(Kind::Proposal),
            8 => Ok(Kind::Block),
            9 => Ok(Kind::Release),
            _ => Err(UnknownKind(number)),
        }
    }
}

impl From<Kind> for u16 {
    ghost from_gives = { λ k n. n ≡ number k };

    fn from(kind: Kind) -> u16 {
        kind as u16
    }
}

// A view and a name: a vote, a commit, or a timeout's high vote.
#[repr(C)]
#[derive(Clone, Copy)]
pub struct Vote {
    pub view: View,
    pub name: [u8; 32],
}

// The certificate inside a timeout. Its kind is the number that stands there; where the timeout has its shape, that of a block or of a weak certificate.
#[derive(Clone, Copy)]
pub struct Carried {
    pub kind: u16,
    pub view: View,
    pub name: [u8; 32],
    pub signers: u64,
}

#[derive(Clone, Copy)]
pub struct Timeout {
    pub sender: u16,
    pub view: View,
    pub high: Vote,
    pub carried: Carried,
}

// A block certificate inside a record: where it begins, its view and its signers. Its name stays in the record.
#[derive(Clone, Copy)]
pub struct BlockCertificate {
    pub place: usize,
    pub view: View,
    pub signers: u64,
}

// A timeout certificate inside a record: where it begins and how many timeouts it has.
#[derive(Clone, Copy)]
pub struct TimeoutCertificate {
    pub place: usize,
    pub count: usize,
}

// The progress certificate of a proposal: a record of kind 3 or 6.
#[derive(Clone, Copy)]
pub enum Progress {
    Block(BlockCertificate),
    Timeouts(TimeoutCertificate),
}

// A proposal or a block: what it says of a name. A proposal's view and progress certificate stand beside it.
#[derive(Clone, Copy)]
pub struct Child {
    pub name: [u8; 32],
    pub parent: [u8; 32],
    pub height: Height,
}

// A release: a record to the host.
#[derive(Clone, Copy)]
pub struct Release {
    pub view: View,
    pub name: [u8; 32],
    pub height: Height,
}
