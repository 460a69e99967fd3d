// The replica: open, record, timer and propose on lent counters, memory, store and output, record and propose also with contents (02, 2.5); and two calls that have no replica: that of 02, 2.3,
// over settings and a record, and the name of a block (02, 2.5).
// Promises: each call, on any content and length of what is lent and with any input, replies and leaves what `opening_call`, `record_call`, `timer_call` and
// `propose_call` of `protocol` say, and with contents `record_call_with` and `propose_call_with`, with the leader by the list that was opened with, of which demand 3 speaks; `hydrangea_decisive` answers what `decisive_call` of `decisive` says,
// and `hydrangea_name` what `name_call` of `digest` says. No public function has a `requires`. Rests on `judge`, `perform`, `release`, `decisive` and `digest`. A call is judged first, which
// writes nothing, and what is left of it is done where it is accepted; a call with contents is refused by these, or it is the call without them.
// `replica_c` exports them by these names, hence the prefix: a library that exports `open` would take the place of the C library's.
#![tactic(auto)]

ghost use Rattle.std.specs.Prelude.{◌≡◌, List, [], length, take};
ghost use Rattle.settings.specs.Answer.{accepts};
ghost use Rattle.settings.specs.Refusal.{refused, answer};
ghost use Rattle.memory.specs.Leaders.{by_list};
ghost use Rattle.protocol.specs.Rules.{again};
ghost use Rattle.protocol.specs.Contents.{given};
ghost use Rattle.protocol.specs.Calls.{record_call, timer_call, propose_call, opening_call, record_call_with, propose_call_with};
ghost use Rattle.refusals.specs.Early.{lent};
ghost use Rattle.judge.specs.Contents.{propose_refusal};
ghost use Rattle.act.specs.Draft.{work_of, left, left_by};
ghost use Rattle.blocks.specs.declared.Block.{Block};
ghost use Rattle.blocks.specs.Store.{found_of, held};
ghost use Rattle.counters.specs.declared.Counters.{Counters};
ghost use Rattle.event.specs.Event.{Asked, Proposable, filled};
ghost use Rattle.perform.specs.Perform.{Judges, Accepted, timer_number, propose_number, record_number};
ghost use Rattle.decisive.specs.Decisive.{decisive_call};
ghost use Rattle.decisive.specs.Reply.{reply_of as decisive_reply};
ghost use Rattle.digest.specs.Name.{name_call, reply_of as name_reply};
ghost use Rattle.replica.specs.Openings.{opened_outcome, admitted};
ghost use Rattle.replica.specs.Reply.{Concludes, reply_of, lent_to, replied, replied_by};

use blocks::{Block, STORE_LENGTH, fill, held};
use counters::{Counters, opened};
use decisive::{Decisive, whose};
use digest::Named;
use event::Placed;
use event::host::open_memory;
use judge::Want;
use judge::contents::{length_refusal, propose_due, propose_want, record_due};
use perform::{Done, late_propose, late_record};
use release::release_all;
use settings::{Height, Refusal, Settings, View, admit, bad_leaders};

// 01's number of the refusal and no bytes; or 0, and the number of bytes written.
#[repr(C)]
#[derive(Clone, Copy)]
pub struct Reply {
    pub refusal: u64,
    pub written: usize,
}

// A name by value: an array by itself does not cross the library's boundary.
#[repr(C)]
#[derive(Clone, Copy)]
pub struct Name {
    pub bytes: [u8; 32],
}

// What a call answers C: the number of bytes that an accepted one has written, or the number of the refusal.
impl From<Result<usize, Refusal>> for Reply {
    ghost from_gives = { λ a r. r ≡ reply_of (answer a) };

    fn from(answer: Result<usize, Refusal>) -> Reply {
        match answer {
            Ok(written) => Reply {
                refusal: 0,
                written,
            },
            Err(refusal) => Reply {
                refusal: refusal.into(),
                written: 0,
            },
        }
    }
}

// The new block is filled in, where there is one.
fn fill_in(store: &mut [Block], placed: Option<Placed>)
    ensures { store.new ≡ filled store.old placed }
{
    if let Some(new) = placed {
        fill(store, new.place, new.block);
    }
}

// The new block is filled in, rule D is run, and the counters are stored: the number of bytes written.
fn conclude(
    counters: &mut Counters,
    mem: &mut [u8],
    store: &mut [Block],
    out: &mut [u8],
    done: Done,
) -> usize
    requires { Concludes done mem.old out.old store.old }
    ensures { left (record { counters = counters.new; at = result }) mem.new out.new store.new
        ≡ left_by (again done.turns (work_of done.draft mem.old out.old (filled store.old done.placed))) out.old }
{
    fill_in(store, done.placed);
    let last = release_all(mem, store, out, done.draft, done.turns);
    *counters = last.counters;
    last.at
}

// The two blocks that a judgement asks for, where the tip or an entry is one.
fn wanted_blocks(store: &[Block], tip: Block, want: Want) -> (Option<Block>, Option<Block>)
    ensures found { found_of result.0 ≡ held tip (take want.count store.now) want.name }
    ensures under { found_of result.1 ≡ held tip (take want.count store.now) want.base }
{
    (
        held(store, want.count, tip, want.name),
        held(store, want.count, tip, want.base),
    )
}

// A record's judgement: its refusal, or whether its block is held already; nothing is written.
fn record_judged(
    counters: Counters,
    mem: &[u8],
    store: &[Block],
    room: usize,
    rec: &[u8],
) -> Result<bool, Refusal>
    ensures { Judges (record_number room rec.now) (Asked rec.now) result (lent counters mem.now store.now) }
{
    let want = judge::record(counters, mem, store.len(), room, rec)?;
    let (found, under) = wanted_blocks(store, counters.tip, want);
    Ok(late_record(rec, Ok(want), found, under)?.held)
}

// A record that is accepted, and whether its block is held already: the number of bytes written.
fn record_taken(
    counters: &mut Counters,
    mem: &mut [u8],
    store: &mut [Block],
    out: &mut [u8],
    rec: &[u8],
    held: bool,
) -> usize
    requires { Accepted (record_number (length out.old) rec.now) (Asked rec.now held) (lent counters.old mem.old store.old) }
    ensures { replied (reply_of (accepts result)) counters.new mem.new store.new out.new
        ≡ replied_by (record_call by_list (lent_to counters.old mem.old store.old) out.old rec.now) }
{
    let done = perform::record(*counters, mem, out, rec, held);
    conclude(counters, mem, store, out, done)
}

// A record is judged, and taken or refused.
fn record_answered(
    counters: &mut Counters,
    mem: &mut [u8],
    store: &mut [Block],
    out: &mut [u8],
    rec: &[u8],
) -> Result<usize, Refusal>
    ensures { replied (reply_of (answer result)) counters.new mem.new store.new out.new
        ≡ replied_by (record_call by_list (lent_to counters.old mem.old store.old) out.old rec.now) }
{
    let held = record_judged(*counters, mem, store, out.len(), rec)?;
    Ok(record_taken(counters, mem, store, out, rec, held))
}

// A record of any bytes.
pub fn hydrangea_record(
    counters: &mut Counters,
    mem: &mut [u8],
    store: &mut [Block],
    out: &mut [u8],
    rec: &[u8],
) -> Reply
    ensures { replied result counters.new mem.new store.new out.new
        ≡ replied_by (record_call by_list (lent_to counters.old mem.old store.old) out.old rec.now) }
{
    record_answered(counters, mem, store, out, rec).into()
}

// The record, where its contents don't refuse it.
fn record_answered_with(
    counters: &mut Counters,
    mem: &mut [u8],
    store: &mut [Block],
    out: &mut [u8],
    rec: &[u8],
    contents: &[u8],
) -> Result<usize, Refusal>
    ensures { replied (reply_of (answer result)) counters.new mem.new store.new out.new
        ≡ replied_by (record_call_with by_list (lent_to counters.old mem.old store.old) out.old rec.now (given contents.now)) }
{
    record_due(*counters, mem, store.len(), out.len(), rec, contents)?;
    record_answered(counters, mem, store, out, rec)
}

// A record of any bytes that comes with contents of any bytes (02, 2.5): where these don't refuse it, it is the record without them.
pub fn hydrangea_record_with(
    counters: &mut Counters,
    mem: &mut [u8],
    store: &mut [Block],
    out: &mut [u8],
    rec: &[u8],
    contents: &[u8],
) -> Reply
    ensures { replied result counters.new mem.new store.new out.new
        ≡ replied_by (record_call_with by_list (lent_to counters.old mem.old store.old) out.old rec.now (given contents.now)) }
{
    record_answered_with(counters, mem, store, out, rec, contents).into()
}

// A timer that is accepted: the number of bytes written.
fn timer_taken(
    counters: &mut Counters,
    mem: &mut [u8],
    store: &mut [Block],
    out: &mut [u8],
    view: View,
) -> usize
    requires { timer_number (length out.old) view.0 (lent counters.old mem.old store.old) ≡ 0 }
    ensures { replied (reply_of (accepts result)) counters.new mem.new store.new out.new
        ≡ replied_by (timer_call (lent_to counters.old mem.old store.old) out.old view.0) }
{
    let done = perform::timer(*counters, mem, out, view);
    conclude(counters, mem, store, out, done)
}

// A timer is judged, and taken or refused.
fn timer_answered(
    counters: &mut Counters,
    mem: &mut [u8],
    store: &mut [Block],
    out: &mut [u8],
    view: View,
) -> Result<usize, Refusal>
    ensures { replied (reply_of (answer result)) counters.new mem.new store.new out.new
        ≡ replied_by (timer_call (lent_to counters.old mem.old store.old) out.old view.0) }
{
    judge::timer(*counters, mem, store.len(), out.len(), view)?;
    Ok(timer_taken(counters, mem, store, out, view))
}

// The timer of a view.
pub fn hydrangea_timer(
    counters: &mut Counters,
    mem: &mut [u8],
    store: &mut [Block],
    out: &mut [u8],
    view: u64,
) -> Reply
    ensures { replied result counters.new mem.new store.new out.new
        ≡ replied_by (timer_call (lent_to counters.old mem.old store.old) out.old view) }
{
    timer_answered(counters, mem, store, out, View(view)).into()
}

// A propose's judgement: its refusal, or the height of the block below; nothing is written.
fn propose_judged(
    counters: Counters,
    mem: &[u8],
    store: &[Block],
    room: usize,
    name: Name,
) -> Result<Height, Refusal>
    ensures { Judges (propose_number room name.bytes) (λ below. Proposable name.bytes below.0) result (lent counters mem.now store.now) }
{
    let want = judge::propose(counters, mem, store.len(), room, name.bytes)?;
    let (found, under) = wanted_blocks(store, counters.tip, want);
    Ok(late_propose(Ok(want), found, under)?.below)
}

// A propose that is accepted, and the height of the block below: the number of bytes written.
fn propose_taken(
    counters: &mut Counters,
    mem: &mut [u8],
    store: &mut [Block],
    out: &mut [u8],
    name: Name,
    below: Height,
) -> usize
    requires { Accepted (propose_number (length out.old) name.bytes) (Proposable name.bytes below.0) (lent counters.old mem.old store.old) }
    ensures { replied (reply_of (accepts result)) counters.new mem.new store.new out.new
        ≡ replied_by (propose_call by_list (lent_to counters.old mem.old store.old) out.old name.bytes) }
{
    let done = perform::propose(*counters, mem, out, name.bytes, below);
    conclude(counters, mem, store, out, done)
}

// A propose is judged, and taken or refused.
fn propose_answered(
    counters: &mut Counters,
    mem: &mut [u8],
    store: &mut [Block],
    out: &mut [u8],
    name: Name,
) -> Result<usize, Refusal>
    ensures { replied (reply_of (answer result)) counters.new mem.new store.new out.new
        ≡ replied_by (propose_call by_list (lent_to counters.old mem.old store.old) out.old name.bytes) }
{
    let below = propose_judged(*counters, mem, store, out.len(), name)?;
    Ok(propose_taken(counters, mem, store, out, name, below))
}

// A block of a name is proposed.
pub fn hydrangea_propose(
    counters: &mut Counters,
    mem: &mut [u8],
    store: &mut [Block],
    out: &mut [u8],
    name: Name,
) -> Reply
    ensures { replied result counters.new mem.new store.new out.new
        ≡ replied_by (propose_call by_list (lent_to counters.old mem.old store.old) out.old name.bytes) }
{
    propose_answered(counters, mem, store, out, name).into()
}

// What contents refuse a propose by; nothing is written.
fn propose_refusal(
    counters: Counters,
    mem: &[u8],
    store: &[Block],
    room: usize,
    name: Name,
    contents: &[u8],
) -> Result<(), Refusal>
    ensures { refused result ≡ propose_refusal (lent counters mem.now store.now) room name.bytes contents.now }
{
    match propose_want(counters, mem, store.len(), room, name.bytes, contents) {
        Ok(want) => {
            let (found, under) = wanted_blocks(store, counters.tip, want);
            propose_due(name.bytes, Ok(want), found, under, contents)
        }
        Err(refusal) => length_refusal(refusal),
    }
}

// The proposal, where its contents don't refuse it.
fn propose_answered_with(
    counters: &mut Counters,
    mem: &mut [u8],
    store: &mut [Block],
    out: &mut [u8],
    name: Name,
    contents: &[u8],
) -> Result<usize, Refusal>
    ensures { replied (reply_of (answer result)) counters.new mem.new store.new out.new
        ≡ replied_by (propose_call_with by_list (lent_to counters.old mem.old store.old) out.old name.bytes (given contents.now)) }
{
    propose_refusal(*counters, mem, store, out.len(), name, contents)?;
    propose_answered(counters, mem, store, out, name)
}

// A block of a name and of contents is proposed, in the same way.
pub fn hydrangea_propose_with(
    counters: &mut Counters,
    mem: &mut [u8],
    store: &mut [Block],
    out: &mut [u8],
    name: Name,
    contents: &[u8],
) -> Reply
    ensures { replied result counters.new mem.new store.new out.new
        ≡ replied_by (propose_call_with by_list (lent_to counters.old mem.old store.old) out.old name.bytes (given contents.now)) }
{
    propose_answered_with(counters, mem, store, out, name, contents).into()
}

// Of settings that were admitted the leader list and the lengths of memory and store are left to judge.
fn open_admitted(
    mem: &mut [u8],
    entries: usize,
    s: Settings,
    n: u64,
    own: u16,
    leaders: &[u8],
) -> Result<Counters, Refusal>
    ensures { (old : Counters) (l : List Block) → length l ≡ entries → opened_outcome old result mem.new l ≡ admitted (lent_to old mem.old l) s n own leaders.now }
{
    if bad_leaders(n, leaders) {
        return Err(Refusal::Settings);
    }
    if mem.len() < memory::LENGTH {
        return Err(Refusal::Regions);
    }
    if entries < STORE_LENGTH {
        return Err(Refusal::Regions);
    }
    open_memory(mem, s, own, leaders);
    Ok(opened())
}

// An opening, but for the counters and the store: the counters that it leaves, or its refusal.
fn opening(
    mem: &mut [u8],
    entries: usize,
    f: u64,
    c: u64,
    k: u64,
    n: u64,
    own: u64,
    leaders: &[u8],
) -> Result<Counters, Refusal>
    ensures { (old : Counters) (l : List Block) → length l ≡ entries → opened_outcome old result mem.new l ≡ opening_call (lent_to old mem.old l) f c k n own leaders.now }
{
    let s = admit(f, c, k, n, own)?;
    open_admitted(mem, entries, s, n, own as u16, leaders)
}

// An opening writes no bytes.
fn open_answered(
    counters: &mut Counters,
    mem: &mut [u8],
    store: &[Block],
    f: u64,
    c: u64,
    k: u64,
    n: u64,
    own: u64,
    leaders: &[u8],
) -> Result<usize, Refusal>
    ensures { replied (reply_of (answer result)) counters.new mem.new store.now []
        ≡ replied_by (opening_call (lent_to counters.old mem.old store.now) f c k n own leaders.now) }
{
    let new = opening(mem, store.len(), f, c, k, n, own, leaders)?;
    *counters = new;
    Ok(0)
}

// The opening: settings, n, own number and leader list. The store only has to be long enough.
pub fn hydrangea_open(
    counters: &mut Counters,
    mem: &mut [u8],
    store: &[Block],
    f: u64,
    c: u64,
    k: u64,
    n: u64,
    own: u64,
    leaders: &[u8],
) -> Reply
    ensures { replied result counters.new mem.new store.now []
        ≡ replied_by (opening_call (lent_to counters.old mem.old store.now) f c k n own leaders.now) }
{
    open_answered(counters, mem, store, f, c, k, n, own, leaders).into()
}

// Whose timeout decided it: settings and n, and a record of any bytes. All that `replica_c` exports stands here.
pub fn hydrangea_decisive(f: u64, c: u64, k: u64, n: u64, rec: &[u8]) -> Decisive
    ensures { result ≡ decisive_reply (decisive_call f c k n rec.now) }
{
    whose(f, c, k, n, rec)
}

// The name of a block: its parent, its height, and contents of any bytes. It stands here for the same reason.
pub fn hydrangea_name(parent: Name, height: u64, contents: &[u8]) -> Named
    ensures { result ≡ name_reply (name_call parent.bytes height contents.now) }
{
    Named::from(digest::name(parent.bytes, height, contents))
}
