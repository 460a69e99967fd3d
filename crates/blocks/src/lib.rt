// Blocks and the store of blocks, lent as a slice of structs: search, fill, the walk from parent to parent, releases, drop.
// Promises: each function does what its definition in specs/Store.antt says of the first `count` entries, on any content. Of the public ones only
// `release` asks something, that the block descends and that its records have room; the others ask of their callers here that a place lies inside
// the store or the output, and that verdicts noted so far are true. proofs/{Filled, Ancestry, Linked, Kept}.antt have the laws.
// Rests on `codec`, `wire` and the bits of `certificate`.
#![tactic(auto)]

ghost use Rattle.std.specs.Prelude.{◌≡◌, true, false, cond, Some, None, ◌+◌, ◌*◌, ◌≤◌, ltb, length, set, take};
ghost use Rattle.std.proofs.lemmas.List.Edits.{sets};
ghost use Rattle.codec.specs.Bytes.{patch};
ghost use Rattle.codec.specs.Names.{same_bytes};
ghost use Rattle.wire.specs.Encode.{release_bytes};
ghost use Rattle.wire.specs.Fields.{release_length};
ghost use Rattle.blocks.specs.Steps.{onward_of, verdict_of, noted_of, Noted, kept_from, place_of};
ghost use Rattle.blocks.specs.Store.{found_of, find, held, descends, ancestry, releases, kept, dropped};

use settings::{Height, View};
use wire::Release;

// The store that a host lends has at least so many entries, and no more are held.
pub const STORE_LENGTH: usize = 128;

#[repr(C)]
#[derive(Clone, Copy)]
pub struct Block {
    pub name: [u8; 32],
    pub parent: [u8; 32],
    pub height: Height,
}

impl Block {
    // Mostly the first bytes tell. A search asks it of each entry, so that a call would take the most of its time.
    #[inline(always)]
    fn is_named(&self, name: &[u8; 32]) -> bool
        ensures { result ≡ same_bytes self.now.name name.now }
    {
        self.name[0] == name[0] && self.name == *name
    }
}

// The entries that are held.
fn entries(store: &[Block], count: usize) -> &[Block]
    ensures { result.now ≡ take count store.now }
{
    &store[..count.min(store.len())]
}

// Past the end it does nothing, as `set`.
pub fn fill(store: &mut [Block], at: usize, b: Block)
    ensures { store.new ≡ set store.old at b }
{
    if at < store.len() {
        store[at] = b;
    }
}

// The place of the first entry of a name.
fn place(entries: &[Block], name: [u8; 32]) -> Option<usize>
    ensures { result ≡ cond (ltb (place_of name entries.now) (length entries.now)) (Some (place_of name entries.now)) None }
{
    entries.iter().position(|b| b.is_named(&name))
}

pub fn search(store: &[Block], count: usize, name: [u8; 32]) -> Option<Block>
    ensures { found_of result ≡ find name (take count store.now) }
{
    let held = entries(store, count);
    let at = place(held, name)?;
    Some(held[at])
}

// The tip first, and then the entries.
pub fn held(store: &[Block], count: usize, tip: Block, name: [u8; 32]) -> Option<Block>
    ensures { found_of result ≡ held tip (take count store.now) name }
{
    if tip.is_named(&name) {
        return Some(tip);
    }
    search(store, count, name)
}

// One step of the walk from parent to parent: it goes on at the entry at a place, or it ends, well or not.
#[derive(Clone, Copy)]
enum Onward {
    On(usize),
    Ends(bool),
}

// Every decision of the walk.
fn step(held: &[Block], tip: Block, b: Block) -> Onward
    ensures { result ≡ onward_of tip held.now b }
{
    if tip.is_named(&b.parent) {
        return Onward::Ends(tip.height < b.height);
    }
    match place(held, b.parent) {
        Some(at) if held[at].height < b.height => Onward::On(at),
        _ => Onward::Ends(false),
    }
}

// The heights fall, so that it ends on any content.
fn leads(held: &[Block], tip: Block, b: Block) -> bool
    ensures { result ≡ descends tip held.now b }
{
    let mut block = b;
    'down: loop {
        match step(held, tip, block) {
            Onward::On(at) => block = held[at],
            Onward::Ends(well) => return well,
        }
    }
}

pub fn descends(store: &[Block], count: usize, tip: Block, b: Block) -> bool
    ensures { result ≡ descends tip (take count store.now) b }
{
    leads(entries(store, count), tip, b)
}

// Which of the entries judged so far descend, of as many as are held: a bit for each.
#[derive(Clone, Copy)]
struct Verdicts(u128);

impl Verdicts {
    fn of(self, at: usize) -> bool
        ensures { result ≡ verdict_of self at }
    {
        at < STORE_LENGTH && (self.0 >> at) % 2 == 1
    }

    // Entry i was judged, and descends.
    fn noted(self, i: usize) -> Verdicts
        requires { verdict_of self i ≡ false }
        ensures { result ≡ noted_of self i true }
    {
        if i < STORE_LENGTH {
            return Verdicts(self.0 + (1u128 << i));
        }
        self
    }
}

// Whether b descends, in one scan of the store where b's parent was judged before: v has the verdicts of the entries before place i, and where the
// walk would go on at one of them, it ends as that one does.
fn judged(held: &[Block], tip: Block, b: Block, i: usize, v: Verdicts) -> bool
    requires { Noted tip held.now i v }
    ensures { result ≡ descends tip held.now b }
{
    match step(held, tip, b) {
        Onward::On(at) if at < i && at < STORE_LENGTH => v.of(at),
        Onward::On(at) => leads(held, tip, held[at]),
        Onward::Ends(well) => well,
    }
}

// The release of one block, and the place behind it.
fn put_one(out: &mut [u8], at: usize, sender: u16, view: View, b: Block) -> usize
    requires { at + release_length ≤ length out.old }
    ensures { (result ≡ at + release_length) × (out.new ≡ patch out.old at (release_bytes sender view.0 b.name b.height.0)) }
{
    let name = b.name;
    let release = Release {
        view,
        name,
        height: b.height,
    };
    wire::write::put_release(out, at, sender, release);
    at + wire::length::RELEASE
}

// What lies below b is written first. Beside what `release` says, a record of each block has 56 bytes.
fn put_line(
    held: &[Block],
    tip: Block,
    b: Block,
    sender: u16,
    view: View,
    out: &mut [u8],
    at: usize,
) -> usize
    requires { (descends tip held.now b ≡ true) × (at + release_length * length (ancestry tip held.now b) ≤ length out.old) }
    ensures { (result ≡ at + release_length * length (ancestry tip held.now b))
        × ((length (releases sender view.0 (ancestry tip held.now b)) ≡ release_length * length (ancestry tip held.now b))
        × (out.new ≡ patch out.old at (releases sender view.0 (ancestry tip held.now b)))) }
{
    let below = match step(held, tip, b) {
        Onward::On(at_parent) => put_line(held, tip, held[at_parent], sender, view, out, at),
        Onward::Ends(_) => at,
    };
    put_one(out, below, sender, view, b)
}

pub fn release(
    store: &[Block],
    count: usize,
    tip: Block,
    b: Block,
    sender: u16,
    view: View,
    out: &mut [u8],
    at: usize,
) -> usize
    requires { (descends tip (take count store.now) b ≡ true) × (at + release_length * length (ancestry tip (take count store.now) b) ≤ length out.old) }
    ensures { (result ≡ at + release_length * length (ancestry tip (take count store.now) b))
        × ((length (releases sender view.0 (ancestry tip (take count store.now) b)) ≡ release_length * length (ancestry tip (take count store.now) b))
        × (out.new ≡ patch out.old at (releases sender view.0 (ancestry tip (take count store.now) b)))) }
{
    put_line(entries(store, count), tip, b, sender, view, out, at)
}

// The entries from place i on. Every one is judged before any is stored, so that each walk goes over the store as it was; and what lies behind an
// entry is stored before it, at places behind its own. v has the verdicts of the entries before place i.
fn keep_from(
    store: &mut [Block],
    count: usize,
    tip: Block,
    i: usize,
    at: usize,
    v: Verdicts,
) -> usize
    requires { (i ≤ length (take count store.old)) × ((at ≤ i) × Noted tip (take count store.old) i v) }
    ensures { (result ≡ at + length (kept_from tip (take count store.old) i))
        × (store.new ≡ sets store.old at (kept_from tip (take count store.old) i)) }
{
    let held = entries(store, count);
    if held.len() <= i {
        return at;
    }
    let b = held[i];
    if judged(held, tip, b, i, v) {
        let end = keep_from(store, count, tip, i + 1, at + 1, v.noted(i));
        store[at] = b;
        end
    } else {
        keep_from(store, count, tip, i + 1, at, v)
    }
}

// The new count.
pub fn drop_others(store: &mut [Block], count: usize, tip: Block) -> usize
    ensures { (result ≡ length (kept tip (take count store.old))) × (store.new ≡ dropped tip count store.old) }
{
    keep_from(store, count, tip, 0, 0, Verdicts(0))
}
