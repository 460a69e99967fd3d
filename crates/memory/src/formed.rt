// The timeout certificate that is formed of the timeouts kept for a view.
ghost use Rattle.std.specs.Prelude.{◌≡◌, ◌+◌, ◌*◌, ◌≤◌, length};
ghost use Rattle.settings.specs.Quorum.{largest};
ghost use Rattle.codec.specs.Bytes.{patch};
ghost use Rattle.wire.specs.Fields.{timeout_length, timeouts_head};
ghost use Rattle.memory.specs.Layout.{memory_length};
ghost use Rattle.memory.specs.Formed.{formed};

use crate::kept::{gather, timeout_row};
use settings::View;
use wire::length;
use wire::write::put_timeouts_head;

// Its record goes into a region, at a place; the place after it is returned.
pub fn form(mem: &[u8], view: View, n: usize, sender: u16, out: &mut [u8], at: usize) -> usize
    requires { (memory_length ≤ length mem.now) × ((n ≤ largest) × (at + (timeouts_head + timeout_length * n) ≤ length out.old)) }
    ensures { (result ≡ at + length (formed mem.now view.0 n sender)) × (out.new ≡ patch out.old at (formed mem.now view.0 n sender)) }
{
    let end = gather(
        mem,
        timeout_row(view),
        length::TIMEOUT,
        n,
        out,
        at + length::TIMEOUTS_HEAD,
    );
    put_timeouts_head(out, at, sender, view, end - (at + length::TIMEOUTS_HEAD));
    end
}
