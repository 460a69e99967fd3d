// The opening, and the pieces of the bytes after it: which one is at the front, whether it can be taken, and what it asks.
ghost use Rattle.std.specs.Prelude.{◌≡◌, ◌≤◌, length};
ghost use Rattle.settings.specs.Quorum.{largest};
ghost use Rattle.settings.specs.Opening.{in_turn};
ghost use Rattle.codec.specs.Bytes.{part, patch};
ghost use Rattle.protocol.specs.OneCall.{Call};
ghost use Rattle.replay.specs.Input.{well_formed, opening_of, sized, front, asks_host, asks_record};
ghost use Rattle.replay.specs.Replay.{known, ready};
ghost use Rattle.replay.specs.Requests.{asked_of, checked, piece_of, told, told_front, told_next, request_at};

use crate::{Ask, Opening, Place, Request, lines};
use codec::name_at;
use codec::num::{le_at, u16_at, u32_at, u64_at};
use replica::Name;
use settings::{Refusal, Settings, View};

// The kinds of what the host says to the program.
mod kind {
    pub const TIMER: u16 = 10;

    pub const PROPOSE: u16 = 11;

    pub const OPENING: u16 = 12;
}

// Their lengths.
pub mod length {
    pub const TIMER: usize = 16;

    pub const PROPOSE: usize = 40;

    pub const OPENING: usize = 24;
}

// ---- the opening

// Its length, kind 12, sender 0, and 6 zero bytes at the end.
#[tactic(auto, unfolding(crate::specs::Input::well_formed))]
fn well_formed(rec: &[u8]) -> bool
    ensures { result ≡ well_formed rec.now }
{
    rec.len() == length::OPENING
        && u32_at(rec, 0) as usize == length::OPENING
        && u16_at(rec, 4) == kind::OPENING
        && u16_at(rec, 6) == 0
        && le_at(rec, 18, 6) == 0
}

// The numbers 0 to 31, at the front of a region: the first n of them are the leader list of a cluster of n.
pub fn put_in_turn(list: &mut [u8])
    requires { largest ≤ length list.old }
    ensures { list.new ≡ patch list.old 0 (in_turn largest) }
{
    for i in 0..Settings::LARGEST {
        list[i as usize] = i as u8;
    }
}

// The first record's numbers, of which at most 24 bytes are handed over.
pub fn opening(rec: &[u8]) -> Option<Opening>
    ensures { result ≡ opening_of rec.now }
{
    if !well_formed(rec) {
        return None;
    }
    Some(Opening {
        f: u16_at(rec, 8) as u64,
        c: u16_at(rec, 10) as u64,
        k: u16_at(rec, 12) as u64,
        n: u16_at(rec, 14) as u64,
        own: u16_at(rec, 16) as u64,
    })
}

// ---- the piece at the front

// A length that a record can have.
fn is_sized(n: usize) -> bool
    ensures { result ≡ sized n }
{
    (wire::length::HEADER..=wire::length::LONGEST_RECORD).contains(&n)
}

// The record that the bytes begin with, where one is there.
fn first_record(rest: &[u8]) -> Option<&[u8]>
    ensures { piece_of result ≡ front rest.now }
{
    if rest.len() < wire::length::HEADER {
        return None;
    }
    let n = u32_at(rest, 0) as usize;
    if !is_sized(n) {
        return None;
    }
    rest.get(..n)
}

// The piece is known, whatever follows: its record is there, or none can be.
pub fn is_known(rest: &[u8]) -> bool
    ensures { result ≡ known rest.now }
{
    if rest.len() < wire::length::HEADER {
        return false;
    }
    let n = u32_at(rest, 0) as usize;
    !is_sized(n) || n <= rest.len()
}

// It can be taken: where the input has ended, whatever is left of it.
pub fn is_ready(rest: &[u8], ended: bool) -> bool
    ensures { result ≡ ready ended rest.now }
{
    if ended {
        !rest.is_empty()
    } else {
        is_known(rest)
    }
}

// ---- what it asks

// What the host says has one length, and sender 0.
fn from_host(rec: &[u8], size: usize) -> Result<(), Refusal>
    requires { 8 ≤ length rec.now }
    ensures { (c : Call) → checked result c ≡ asks_host rec.now size c }
{
    if rec.len() != size {
        return Err(Refusal::Length);
    }
    let sender = u16_at(rec, 6);
    if sender != 0 {
        return Err(Refusal::Party);
    }
    Ok(())
}

// A timer or a proposal, or any other record, which is the replica's to judge.
fn asked(rec: &[u8]) -> Result<Ask<'_>, Refusal>
    requires { 8 ≤ length rec.now }
    ensures { asked_of result ≡ asks_record rec.now }
{
    match u16_at(rec, 4) {
        kind::TIMER => {
            from_host(rec, length::TIMER)?;
            Ok(Ask::Timer(View(u64_at(rec, 8))))
        }
        kind::PROPOSE => {
            from_host(rec, length::PROPOSE)?;
            let bytes = name_at(rec, 8);
            Ok(Ask::Propose(Name { bytes }))
        }
        _ => Ok(Ask::Record(rec)),
    }
}

// Bytes that begin with no record are refused as a record of a wrong length.
fn front(rest: &[u8]) -> Request<'_>
    ensures { told result ≡ told_front rest.now }
{
    match first_record(rest) {
        Some(rec) => Request {
            used: rec.len(),
            asks: asked(rec),
        },
        None => Request {
            used: rest.len(),
            asks: Err(Refusal::Length),
        },
    }
}

// The piece from the place on, if it is to be taken.
pub fn next_request(input: &[u8], room: usize, ended: bool, p: Place) -> Option<Request<'_>>
    ensures { told_next result ≡ request_at ended input.now room p }
{
    if p.next == 0 || room < p.filled || room - p.filled < lines::LINE {
        return None;
    }
    let rest = input.get(p.at..)?;
    if !is_ready(rest, ended) {
        return None;
    }
    Some(front(rest))
}

// The first n bytes, or those of them that there are.
pub fn first_of(list: &[u8], n: usize) -> &[u8]
    ensures { result.now ≡ part list.now 0 n }
{
    list.get(..n).unwrap_or(list)
}
