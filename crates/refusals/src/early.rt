// From 6 on: a record that has its shape, as far as the store isn't asked, and propose.
ghost use Rattle.std.specs.Prelude.{◌≡◌, not, ◌&&◌, ◌||◌, false, [], ◌∷◌, suc, ◌+◌, ◌≤◌, ◌<◌, leb, ltb, eqb, length};
ghost use Rattle.settings.specs.Answer.{◌⇒◌};
ghost use Rattle.settings.specs.Quorum.{largest, last_view, replicas};
ghost use Rattle.settings.specs.Refusal.{refused};
ghost use Rattle.codec.specs.Names.{name_length};
ghost use Rattle.wire.specs.Fields.{sender_of, view_of, name_of, progress_of, header_length, vote_length, timeout_length, proposal_head};
ghost use Rattle.wire.specs.Shape.{certificate_length, certificate_kind_bad, bad_length, bad_kind};
ghost use Rattle.wire.specs.declared.Progress.TheVariants.{Block, Timeouts};
ghost use Rattle.wire.specs.Content.{vote, commit, timeout, certificate, timeout_of, certificate_of, content, progress_means, Within};
ghost use Rattle.certificate.specs.Good.{progress_good};
ghost use Rattle.memory.specs.Layout.{memory_length, row_size, settings_of, own_of, entry_place};
ghost use Rattle.memory.specs.Leaders.{Listed, by_list};
ghost use Rattle.protocol.specs.Refusals.{refusals, view_of_progress};
ghost use Rattle.refusals.specs.Number.{first_of};
ghost use Rattle.refusals.specs.Early.{lent, ballot_rules, kept_rules, voted_rules, proposal_first, proposal_rules, early_rules, early_propose};

use certificate::good::{block_certificate, progress_good, timeout_good, timeouts_good};
use codec::name::{is_zero, same_bytes};
use codec::name_at;
use codec::num::{u16_at, u64_at};
use counters::{Counters, locks};
use memory::kept::{commit_row, entry_at, has, timeout_row, vote_row};
use memory::leaders::leader;
use memory::window::lowest;
use memory::{own, settings};
use settings::{Refusal, Settings, View};
use wire::read::{kind_at, progress, vote};
use wire::{BlockCertificate, Kind, Progress, TimeoutCertificate, length};

// 6: of no replica of the cluster, or of oneself.
fn not_other(mem: &[u8], sender: u64) -> bool
    requires { entry_place ≤ length mem.now }
    ensures { result ≡ (leb (replicas (settings_of mem.now)) sender || eqb sender (own_of mem.now)) }
{
    settings(mem).n() <= sender || sender == own(mem) as u64
}

// 7: below the current view, or view 0.
pub fn below_view(current: View, v: View) -> bool
    ensures { result ≡ (ltb v.0 current.0 || eqb v.0 0) }
{
    v < current || v.0 == 0
}

// 8: above the window, which ends below the last view.
fn above_window(current: View, v: View) -> bool
    ensures { result ≡ (ltb (current.0 + 3) v.0 || leb last_view v.0) }
{
    (current < v && 3 < v.0 - current.0) || View::LAST <= v
}

// Kinds 1 and 2, which differ in the row that keeps them.
#[tactic(auto, using(codec::proofs::Library::pointwise_same), unfolding(crate::specs::Early::ballot_rules, wire::specs::Content::vote_at, memory::specs::Kept::kept, settings::specs::Refusal::refused, settings::specs::Refusal::number, crate::specs::Number::first_of))]
fn ballot(c: Counters, mem: &[u8], rec: &[u8], row: usize) -> Result<(), Refusal>
    requires { (memory_length ≤ length mem.now) × ((replicas (settings_of mem.now) ≤ largest) × ((vote_length ≤ length rec.now) × (row + row_size name_length ≤ memory_length))) }
    ensures { refused result ≡ first_of (ballot_rules (lent c mem.now []) row (sender_of rec.now) (view_of rec.now) (name_of rec.now)) }
{
    let sender = u16_at(rec, 6) as u64;
    let vote = vote(rec, 8);
    if not_other(mem, sender) {
        return Err(Refusal::Party);
    }
    if vote.view < lowest(c.view) {
        return Err(Refusal::ViewBelow);
    }
    if above_window(c.view, vote.view) {
        return Err(Refusal::ViewAbove);
    }
    if !has(mem, row, sender) {
        return Ok(());
    }
    if name_at(mem, entry_at(row, 32, sender as usize)) == vote.name {
        return Err(Refusal::Repeated);
    }
    Err(Refusal::Conflicting)
}

// Kind 3. It has no window: a certificate of any view below the last may be above the lock.
fn block_certificate_early(
    c: Counters,
    mem: &[u8],
    rec: &[u8],
    b: BlockCertificate,
) -> Result<(), Refusal>
    requires { (entry_place ≤ length mem.now) × ((header_length ≤ length rec.now) × Within rec.now (Block b)) }
    ensures { refused result ≡ first_of (refusals (lent c mem.now []) by_list rec.now (certificate (sender_of rec.now) (progress_means rec.now (Block b)))) }
{
    let s = settings(mem);
    if s.n() <= u16_at(rec, 6) as u64 {
        return Err(Refusal::Party);
    }
    let k = block_certificate(rec, b);
    if View::LAST <= k.view {
        return Err(Refusal::ViewAbove);
    }
    if !k.is_good(s) {
        return Err(Refusal::Certificate);
    }
    if k.outranks(locks(c).lock) {
        return Ok(());
    }
    Err(Refusal::Repeated)
}

// Kind 6.
fn timeout_certificate_early(
    c: Counters,
    mem: &[u8],
    rec: &[u8],
    t: TimeoutCertificate,
) -> Result<(), Refusal>
    requires { (entry_place ≤ length mem.now) × ((header_length ≤ length rec.now) × Within rec.now (Timeouts t)) }
    ensures { refused result ≡ first_of (refusals (lent c mem.now []) by_list rec.now (certificate (sender_of rec.now) (progress_means rec.now (Timeouts t)))) }
{
    let s = settings(mem);
    if s.n() <= u16_at(rec, 6) as u64 {
        return Err(Refusal::Party);
    }
    let v = View(u64_at(rec, t.place + 8));
    if below_view(c.view, v) {
        return Err(Refusal::ViewBelow);
    }
    if View::LAST <= v {
        return Err(Refusal::ViewAbove);
    }
    if timeouts_good(rec, t, s) {
        return Ok(());
    }
    Err(Refusal::Certificate)
}

// Kinds 3 and 6: a certificate that is a record of its own.
fn certificate_early(c: Counters, mem: &[u8], rec: &[u8]) -> Result<(), Refusal>
    requires { (entry_place ≤ length mem.now) × ((certificate_length rec.now ≡ false) × (certificate_kind_bad rec.now ≡ false)) }
    ensures { refused result ≡ first_of (refusals (lent c mem.now []) by_list rec.now (certificate (sender_of rec.now) (certificate_of rec.now))) }
{
    let read = progress(rec, 0);
    match read {
        Progress::Block(b) => block_certificate_early(c, mem, rec, b),
        Progress::Timeouts(t) => timeout_certificate_early(c, mem, rec, t),
    }
}

// 10 and 11 of kind 5: the kept timeout of a sender, all its bytes compared.
fn timeout_kept(mem: &[u8], row: usize, sender: u64, rec: &[u8]) -> Result<(), Refusal>
    requires { (memory_length ≤ length mem.now) × ((sender < largest) × (row + row_size timeout_length ≤ memory_length)) }
    ensures { refused result ≡ first_of (kept_rules mem.now row sender rec.now) }
{
    if !has(mem, row, sender) {
        return Ok(());
    }
    let at = entry_at(row, length::TIMEOUT, sender as usize);
    if same_bytes(&mem[at..at + length::TIMEOUT], rec) {
        return Err(Refusal::Repeated);
    }
    Err(Refusal::Conflicting)
}

// Kind 5.
fn timeout_early(c: Counters, mem: &[u8], rec: &[u8]) -> Result<(), Refusal>
    requires { (memory_length ≤ length mem.now) × ((replicas (settings_of mem.now) ≤ largest) × (timeout_length ≤ length rec.now)) }
    ensures { refused result ≡ first_of (refusals (lent c mem.now []) by_list rec.now (timeout (timeout_of rec.now))) }
{
    let sender = u16_at(rec, 6) as u64;
    let v = View(u64_at(rec, 8));
    if not_other(mem, sender) {
        return Err(Refusal::Party);
    }
    if below_view(c.view, v) {
        return Err(Refusal::ViewBelow);
    }
    if above_window(c.view, v) {
        return Err(Refusal::ViewAbove);
    }
    if !timeout_good(rec, settings(mem)) {
        return Err(Refusal::Certificate);
    }
    timeout_kept(mem, timeout_row(v), sender, rec)
}

// 6 of kind 7: not by another replica, or not by the leader of its view.
fn not_leader(mem: &[u8], sender: u64, v: View) -> bool
    requires { (entry_place ≤ length mem.now) × Listed mem.now }
    ensures { result ≡ ((leb (replicas (settings_of mem.now)) sender || eqb sender (own_of mem.now)) || (ltb 0 v.0 && not (eqb sender (by_list mem.now v.0)))) }
{
    not_other(mem, sender) || (v.0 != 0 && sender != leader(mem, v))
}

// The view of a progress certificate.
fn progress_view(rec: &[u8], progress: Progress) -> View
    requires { Within rec.now progress }
    ensures { result.0 ≡ view_of_progress (progress_means rec.now progress) }
{
    match progress {
        Progress::Block(b) => b.view,
        Progress::Timeouts(t) => View(u64_at(rec, t.place + 8)),
    }
}

// 9 of kind 7: its progress certificate isn't good, or isn't of the view before.
fn progress_bad(rec: &[u8], progress: Progress, settings: Settings, v: View) -> bool
    requires { Within rec.now progress }
    ensures { result ≡ not (progress_good settings (progress_means rec.now progress) && eqb (suc (view_of_progress (progress_means rec.now progress))) v.0) }
{
    !progress_good(rec, progress, settings) || v.0 == 0 || progress_view(rec, progress).0 != v.0 - 1
}

// 10 and 11 of kind 7, by the high vote.
#[tactic(auto, using(codec::proofs::Library::pointwise_same), unfolding(crate::specs::Early::voted_rules, settings::specs::Refusal::refused, settings::specs::Refusal::number, crate::specs::Number::first_of))]
fn voted(c: Counters, v: View, name: [u8; 32]) -> Result<(), Refusal>
    ensures { refused result ≡ first_of (voted_rules (lent c [] []) v.0 name) }
{
    if c.high.view != v {
        return Ok(());
    }
    if c.high.name == name {
        return Err(Refusal::Repeated);
    }
    Err(Refusal::Conflicting)
}

// Kind 7: 6 to 9, in the current view.
pub fn proposal_first(current: View, mem: &[u8], rec: &[u8]) -> Result<(), Refusal>
    requires { (entry_place ≤ length mem.now) × (Listed mem.now × ((proposal_head + header_length ≤ length rec.now) × ((certificate_length (progress_of rec.now) ≡ false) × (certificate_kind_bad (progress_of rec.now) ≡ false)))) }
    ensures { refused result ≡ first_of (proposal_first mem.now current.0 (sender_of rec.now) (view_of rec.now) (certificate_of (progress_of rec.now))) }
{
    let v = View(u64_at(rec, 8));
    if not_leader(mem, u16_at(rec, 6) as u64, v) {
        return Err(Refusal::Party);
    }
    if below_view(current, v) {
        return Err(Refusal::ViewBelow);
    }
    if View::LAST <= v {
        return Err(Refusal::ViewAbove);
    }
    let inner = progress(rec, length::PROPOSAL_HEAD);
    if progress_bad(rec, inner, settings(mem), v) {
        return Err(Refusal::Certificate);
    }
    Ok(())
}

// Kind 7, up to the high vote.
fn proposal_early(c: Counters, mem: &[u8], rec: &[u8]) -> Result<(), Refusal>
    requires { (entry_place ≤ length mem.now) × (Listed mem.now × ((proposal_head + header_length ≤ length rec.now) × ((certificate_length (progress_of rec.now) ≡ false) × (certificate_kind_bad (progress_of rec.now) ≡ false)))) }
    ensures { refused result ≡ first_of (proposal_rules (lent c mem.now []) (sender_of rec.now) (view_of rec.now) (name_of rec.now) (certificate_of (progress_of rec.now))) }
{
    proposal_first(c.view, mem, rec)?;
    voted(c, View(u64_at(rec, 8)), name_at(rec, 16))
}

// Kind 8: all but 6 asks the store.
#[tactic(auto, unfolding(settings::specs::Refusal::refused, settings::specs::Refusal::number, crate::specs::Number::first_of))]
pub fn block_first(mem: &[u8], rec: &[u8]) -> Result<(), Refusal>
    requires { (entry_place ≤ length mem.now) × (header_length ≤ length rec.now) }
    ensures { refused result ≡ first_of (leb (replicas (settings_of mem.now)) (sender_of rec.now) ⇒ 6 ∷ []) }
{
    if settings(mem).n() <= u16_at(rec, 6) as u64 {
        return Err(Refusal::Party);
    }
    Ok(())
}

// Every kind: a record that has its shape, in regions that pass 2.
pub fn early(c: Counters, mem: &[u8], rec: &[u8]) -> Result<(), Refusal>
    requires { (memory_length ≤ length mem.now) × ((replicas (settings_of mem.now) ≤ largest) × (Listed mem.now × ((bad_length rec.now ≡ false) × (bad_kind rec.now ≡ false)))) }
    ensures { refused result ≡ first_of (early_rules (lent c mem.now []) rec.now (content rec.now)) }
{
    match kind_at(rec, 4) {
        Some(Kind::Vote) => ballot(c, mem, rec, vote_row(View(u64_at(rec, 8)))),
        Some(Kind::Commit) => ballot(c, mem, rec, commit_row(View(u64_at(rec, 8)))),
        Some(Kind::Timeout) => timeout_early(c, mem, rec),
        Some(Kind::Proposal) => proposal_early(c, mem, rec),
        Some(Kind::Block) => block_first(mem, rec),
        _ => certificate_early(c, mem, rec),
    }
}

// 15: propose out of turn.
fn not_in_turn(c: Counters, mem: &[u8]) -> bool
    requires { (entry_place ≤ length mem.now) × (Listed mem.now × (0 < c.view.0)) }
    ensures { result ≡ (not (eqb (by_list mem.now c.view.0) (own_of mem.now)) || (leb c.view.0 c.timed.0 || (eqb c.high.view.0 c.view.0 || leb last_view c.view.0))) }
{
    leader(mem, c.view) != own(mem) as u64
        || c.view <= c.timed
        || c.high.view == c.view
        || View::LAST <= c.view
}

// Propose: 15, then 5.
#[tactic(auto, unfolding(crate::specs::Early::early_propose, settings::specs::Refusal::refused, settings::specs::Refusal::number, crate::specs::Number::first_of))]
pub fn propose_early(c: Counters, mem: &[u8], name: [u8; 32]) -> Result<(), Refusal>
    requires { (entry_place ≤ length mem.now) × (Listed mem.now × (0 < c.view.0)) }
    ensures { refused result ≡ first_of (early_propose (lent c mem.now []) name) }
{
    if not_in_turn(c, mem) {
        return Err(Refusal::Turn);
    }
    if is_zero(name) {
        return Err(Refusal::Content);
    }
    Ok(())
}
