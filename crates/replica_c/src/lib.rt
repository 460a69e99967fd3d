// The static library: the calls of `replica` for C callers, by the names that `hydrangea.h` declares.
// Promises: each export calls the function of its name and says word for word what that one says. No export has a `requires`. Rests on `replica`.
#![tactic(auto)]

ghost use Rattle.std.specs.Prelude.{◌≡◌, []};
ghost use Rattle.memory.specs.Leaders.{by_list};
ghost use Rattle.protocol.specs.Contents.{given};
ghost use Rattle.protocol.specs.Calls.{record_call, timer_call, propose_call, opening_call, record_call_with, propose_call_with};
ghost use Rattle.decisive.specs.Decisive.{decisive_call};
ghost use Rattle.decisive.specs.Reply.{reply_of as decisive_reply};
ghost use Rattle.digest.specs.Name.{name_call, reply_of as name_reply};
ghost use Rattle.replica.specs.Reply.{lent_to, replied, replied_by};

use blocks::Block;
use counters::Counters;
use decisive::Decisive;
use digest::Named;
use replica::{Name, Reply};

// The opening: settings, n, own number and leader list. The store only has to be long enough.
#[unsafe(no_mangle)]
pub extern "C" fn hydrangea_open(
    counters: &mut Counters,
    mem: &mut [u8],
    store: &[Block],
    f: u64,
    c: u64,
    k: u64,
    n: u64,
    own: u64,
    leaders: &[u8],
) -> Reply
    ensures { replied result counters.new mem.new store.now []
        ≡ replied_by (opening_call (lent_to counters.old mem.old store.now) f c k n own leaders.now) }
{
    replica::hydrangea_open(counters, mem, store, f, c, k, n, own, leaders)
}

// A record of any bytes.
#[unsafe(no_mangle)]
pub extern "C" fn hydrangea_record(
    counters: &mut Counters,
    mem: &mut [u8],
    store: &mut [Block],
    out: &mut [u8],
    rec: &[u8],
) -> Reply
    ensures { replied result counters.new mem.new store.new out.new
        ≡ replied_by (record_call by_list (lent_to counters.old mem.old store.old) out.old rec.now) }
{
    replica::hydrangea_record(counters, mem, store, out, rec)
}

// A record of any bytes that comes with contents of any bytes.
#[unsafe(no_mangle)]
pub extern "C" fn hydrangea_record_with(
    counters: &mut Counters,
    mem: &mut [u8],
    store: &mut [Block],
    out: &mut [u8],
    rec: &[u8],
    contents: &[u8],
) -> Reply
    ensures { replied result counters.new mem.new store.new out.new
        ≡ replied_by (record_call_with by_list (lent_to counters.old mem.old store.old) out.old rec.now (given contents.now)) }
{
    replica::hydrangea_record_with(counters, mem, store, out, rec, contents)
}

// The timer of a view.
#[unsafe(no_mangle)]
pub extern "C" fn hydrangea_timer(
    counters: &mut Counters,
    mem: &mut [u8],
    store: &mut [Block],
    out: &mut [u8],
    view: u64,
) -> Reply
    ensures { replied result counters.new mem.new store.new out.new
        ≡ replied_by (timer_call (lent_to counters.old mem.old store.old) out.old view) }
{
    replica::hydrangea_timer(counters, mem, store, out, view)
}

// A block of a name is proposed.
#[unsafe(no_mangle)]
pub extern "C" fn hydrangea_propose(
    counters: &mut Counters,
    mem: &mut [u8],
    store: &mut [Block],
    out: &mut [u8],
    name: Name,
) -> Reply
    ensures { replied result counters.new mem.new store.new out.new
        ≡ replied_by (propose_call by_list (lent_to counters.old mem.old store.old) out.old name.bytes) }
{
    replica::hydrangea_propose(counters, mem, store, out, name)
}

// A block of a name and of contents is proposed.
#[unsafe(no_mangle)]
pub extern "C" fn hydrangea_propose_with(
    counters: &mut Counters,
    mem: &mut [u8],
    store: &mut [Block],
    out: &mut [u8],
    name: Name,
    contents: &[u8],
) -> Reply
    ensures { replied result counters.new mem.new store.new out.new
        ≡ replied_by (propose_call_with by_list (lent_to counters.old mem.old store.old) out.old name.bytes (given contents.now)) }
{
    replica::hydrangea_propose_with(counters, mem, store, out, name, contents)
}

// Whose timeout decided it: settings and n, and a record of any bytes.
#[unsafe(no_mangle)]
pub extern "C" fn hydrangea_decisive(f: u64, c: u64, k: u64, n: u64, rec: &[u8]) -> Decisive
    ensures { result ≡ decisive_reply (decisive_call f c k n rec.now) }
{
    replica::hydrangea_decisive(f, c, k, n, rec)
}

// The name of a block: its parent, its height, and contents of any bytes.
#[unsafe(no_mangle)]
pub extern "C" fn hydrangea_name(parent: Name, height: u64, contents: &[u8]) -> Named
    ensures { result ≡ name_reply (name_call parent.bytes height contents.now) }
{
    replica::hydrangea_name(parent, height, contents)
}
