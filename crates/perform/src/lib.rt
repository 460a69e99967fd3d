// Each call beside its visits to the store: the rest of its judgement, with what was found there; and, of a call that is accepted, the event and the rules A, B
// and C, over counters by value, the lent memory and the output region. What is left to the caller has no decision: to fill in the new block where there is one,
// and to run rule D so many turns. Promises: for every store that fits what was found there, the refusal is that of the lists of `protocol` (proofs/Deciding.antt:
// record_judges, propose_judges); an accepted call leaves what event and rules of `protocol` leave, and a refused one all as it was (proofs/Calls.antt).
// Rests on `judge`, `event` and `rules`.
#![tactic(auto)]

ghost use Rattle.std.specs.Prelude.{◌≡◌, false, ◌+◌, length, IfOk};
ghost use Rattle.settings.specs.Refusal.{refused};
ghost use Rattle.wire.specs.Content.{content};
ghost use Rattle.wire.specs.Shape.{bad_length};
ghost use Rattle.memory.specs.Layout.{block_count_of};
ghost use Rattle.protocol.specs.Events.{on_record, on_timer, on_propose};
ghost use Rattle.refusals.specs.Number.{first_of, or_else};
ghost use Rattle.refusals.specs.Early.{lent};
ghost use Rattle.blocks.specs.Store.{found_of};
ghost use Rattle.judge.specs.Want.{wanted};
ghost use Rattle.judge.specs.Late.{late_rules, late_propose};
ghost use Rattle.act.specs.Draft.{Does, Ready};
ghost use Rattle.event.specs.Event.{Always, Asked, Proposable};
ghost use Rattle.rules.specs.Phases.{phases};
ghost use Rattle.perform.specs.Perform.{judged_by, rules_room, releases_room, Completes, Lent, Accepted, timer_number, propose_number, record_number};

use act::Draft;
use blocks::Block;
use counters::Counters;
use event::host::{on_propose, on_timer};
use event::record::on_record;
use event::{Event, Placed};
use judge::Want;
use judge::chain::{propose_chain, record_chain};
use memory::block_count;
use rules::phases::run;
use settings::{Height, Refusal, View};

// What an accepted call leaves to its caller: the draft so far; the block to fill in, where one is new; and how often rule D may have to run.
#[derive(Clone, Copy)]
pub struct Done {
    pub draft: Draft,
    pub placed: Option<Placed>,
    pub turns: usize,
}

// What an accepted call is to know of the store: whether its block is held, and the height of the block below.
#[derive(Clone, Copy)]
pub struct Judged {
    pub held: bool,
    pub below: Height,
}

// Where no block is below, the height is that of genesis.
#[tactic(auto, unfolding(crate::specs::Perform::judged_by))]
fn as_judged(found: Option<Block>, under: Option<Block>) -> Judged
    ensures { result ≡ judged_by (found_of found) (found_of under) }
{
    let below = match under {
        Some(lower) => lower.height,
        None => Height(0),
    };
    Judged {
        held: found.is_some(),
        below,
    }
}

// The judgement of a record: what `judge` refused it by, or with the two blocks that `judge` wanted the rest.
pub fn late_record(
    rec: &[u8],
    want: Result<Want, Refusal>,
    found: Option<Block>,
    under: Option<Block>,
) -> Result<Judged, Refusal>
    requires { (wanted want).refusal ≡ 0 → bad_length rec.now ≡ false }
    ensures refusal { refused result ≡ or_else (wanted want).refusal (first_of (late_rules (wanted want) (found_of found) (found_of under) (content rec.now))) }
    ensures found { IfOk result (λ j. j ≡ judged_by (found_of found) (found_of under)) }
{
    let asked = want?;
    record_chain(rec, asked, found, under)?;
    Ok(as_judged(found, under))
}

// The judgement of a name to propose, in the same way.
pub fn late_propose(
    want: Result<Want, Refusal>,
    found: Option<Block>,
    under: Option<Block>,
) -> Result<Judged, Refusal>
    ensures refusal { refused result ≡ or_else (wanted want).refusal (first_of (late_propose (wanted want) (found_of found) (found_of under))) }
    ensures found { IfOk result (λ j. j ≡ judged_by (found_of found) (found_of under)) }
{
    let named = want?;
    propose_chain(named, found, under)?;
    Ok(as_judged(found, under))
}

// The rules after an event, and the number of held blocks.
fn finish(mem: &mut [u8], out: &mut [u8], event: Event) -> Done
    requires { Ready event.draft mem.old out.old (rules_room + releases_room) }
    ensures { (result.placed ≡ event.placed) × (Does phases event.draft mem.old out.old result.draft mem.new out.new × ((result.turns ≡ block_count_of mem.new) × Ready result.draft mem.new out.new releases_room)) }
{
    let draft = run(mem, out, event.draft);
    Done {
        draft,
        placed: event.placed,
        turns: block_count(mem),
    }
}

// The timer of a view, which was accepted.
pub fn timer(c: Counters, mem: &mut [u8], out: &mut [u8], view: View) -> Done
    requires { Lent (Accepted (timer_number (length out.old) view.0) Always) (lent c mem.old) }
    ensures { Completes (on_timer view.0) Always c mem.old out.old result mem.new out.new }
{
    let event = on_timer(mem, out, Draft { counters: c, at: 0 }, view);
    finish(mem, out, event)
}

// A name to propose, which was accepted, on a block of that height.
pub fn propose(c: Counters, mem: &mut [u8], out: &mut [u8], name: [u8; 32], below: Height) -> Done
    requires { Lent (Accepted (propose_number (length out.old) name) (Proposable name below.0)) (lent c mem.old) }
    ensures { Completes (on_propose name) (Proposable name below.0) c mem.old out.old result mem.new out.new }
{
    let event = on_propose(mem, out, Draft { counters: c, at: 0 }, name, below);
    finish(mem, out, event)
}

// A record, which was accepted, and whether its block is held already.
pub fn record(c: Counters, mem: &mut [u8], out: &mut [u8], rec: &[u8], held: bool) -> Done
    requires { Lent (Accepted (record_number (length out.old) rec.now) (Asked rec.now held)) (lent c mem.old) }
    ensures { Completes (on_record rec.now (content rec.now)) (Asked rec.now held) c mem.old out.old result mem.new out.new }
{
    let event = on_record(mem, out, Draft { counters: c, at: 0 }, rec, held);
    finish(mem, out, event)
}
