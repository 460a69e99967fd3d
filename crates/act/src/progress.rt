// A certificate at work: it is adopted, and one that isn't below the current view is forwarded and ends that view.
ghost use Rattle.std.specs.Prelude.{◌≡◌, ◌≤◌, length};
ghost use Rattle.settings.specs.Quorum.{largest, replicas};
ghost use Rattle.codec.specs.Bytes.{part};
ghost use Rattle.wire.specs.declared.Progress.TheVariants.{Block};
ghost use Rattle.wire.specs.Content.{certificate_of, progress_means, Within};
ghost use Rattle.wire.specs.Fields.{vote_length};
ghost use Rattle.certificate.specs.Safe.{safe_certificate};
ghost use Rattle.memory.specs.Layout.{memory_length, settings_of};
ghost use Rattle.counters.specs.Counters.{adopting};
ghost use Rattle.protocol.specs.Events.{commit_after, progress};
ghost use Rattle.act.specs.Draft.{Does, Ready};
ghost use Rattle.act.specs.Progress.{HasForm, IsProgress, certificate_room, advance, InOutput};

use crate::{Draft, send_commit};
use certificate::safe::safe_certificate;
use codec::num::{put_u16, u64_at};
use codec::{name_at, put};
use counters::{Counters, adopting, entering};
use memory::window::enter;
use memory::{own, put_entry, settings};
use settings::View;
use wire::{BlockCertificate, Progress};

// The safe certificate of a certificate's record is adopted.
#[tactic(auto, using(crate::proofs::Advancing::form_stands))]
pub fn adopt_safe(mem: &[u8], c: Counters, rec: &[u8]) -> Counters
    requires { (memory_length ≤ length mem.now) × ((replicas (settings_of mem.now) ≤ largest) × HasForm (replicas (settings_of mem.now)) rec.now) }
    ensures { result ≡ adopting c (safe_certificate (settings_of mem.now) (certificate_of rec.now)) }
{
    let certificate = wire::read::progress(rec, 0);
    adopting(c, safe_certificate(rec, certificate, settings(mem)))
}

// The record of so many bytes that stands behind what is written is adopted and becomes part of what is written, and the view after it is entered.
#[tactic(auto, using(crate::proofs::Advancing::form_stands))]
fn advance(mem: &mut [u8], out: &[u8], d: Draft, size: usize) -> Draft
    requires { InOutput d mem.old out.now size }
    ensures { Does (advance (part out.now d.at size)) d mem.old out.now result mem.new out.now }
{
    let counters = adopt_safe(mem, d.counters, &out[d.at..d.at + size]);
    let next = View(u64_at(out, d.at + 8) + 1);
    enter(mem, counters.view, next);
    put_entry(mem, &out[d.at..d.at + size]);
    Draft {
        counters: entering(counters, next),
        at: d.at + size,
    }
}

// Behind a block certificate that stands in the output: a commit for its view and name, unless that view is timed.
#[tactic(auto, unfolding(wire::specs::Content::Within))]
fn commit_after(mem: &mut [u8], out: &mut [u8], d: Draft, b: BlockCertificate) -> Draft
    requires { Ready d mem.old out.old vote_length × Within out.old (Block b) }
    ensures { Does (commit_after (progress_means out.old (Block b))) d mem.old out.old result mem.new out.new }
{
    if d.counters.timed < b.view {
        let name = name_at(out, b.place + 16);
        return send_commit(mem, out, d, b.view, name);
    }
    d
}

// A certificate whose record stands in the output behind what is written, and that isn't below the current view: it ends that view.
pub fn act_on(mem: &mut [u8], out: &mut [u8], d: Draft, size: usize) -> Draft
    requires { InOutput d mem.old out.old size }
    ensures { Does (progress (part out.old d.at size)) d mem.old out.old result mem.new out.new }
{
    let certificate = wire::read::progress(out, d.at);
    let next = advance(mem, out, d, size);
    match certificate {
        Progress::Block(b) => commit_after(mem, out, next, b),
        Progress::Timeouts(_) => next,
    }
}

// A certificate that came in: its record is forwarded with own as sender, or only adopted.
#[tactic(auto, using(crate::proofs::Advancing::form_stands))]
pub fn progress(mem: &mut [u8], out: &mut [u8], d: Draft, rec: &[u8]) -> Draft
    requires { Ready d mem.old out.old (certificate_room rec.now) × IsProgress (replicas (settings_of mem.old)) rec.now }
    ensures { Does (progress rec.now) d mem.old out.old result mem.new out.new }
{
    if View(u64_at(rec, 8)) < d.counters.view {
        return Draft {
            counters: adopt_safe(mem, d.counters, rec),
            ..d
        };
    }
    put(out, d.at, rec);
    put_u16(out, d.at + 6, own(mem));
    act_on(mem, out, d, rec.len())
}
