// The stand-by queue: whose packets may go before they are eligible, and how far past the clock an eligibility may then lie. Document 02, R-11.
ghost use Rattle.std.specs.Prelude.{◌≡◌, ◌+◌, ◌<◌, ◌≤◌};
ghost use Rattle.rules.specs.Limits.{max_remembered, beyond_32_bits};
ghost use Rattle.rules.specs.Model.{no_connection};
ghost use Rattle.rules.specs.Admission.{bound, burst, stand_by_on, goes_early, distance};
ghost use Rattle.rules.specs.SoundState.{settles};
ghost use Rattle.connections.specs.Rows.{connection_of, past_of};

use super::regulator::after_nth;
use super::stamps::is_stamped;
use super::{Member, packets_in, reserve};
use limits::STAND_BY_ON;
use rules::{Connection, Link};

// The queue is on.
pub fn is_on(l: Link) -> bool
    ensures { result ≡ stand_by_on l }
{
    l.early == STAND_BY_ON
}

// A connection's packets may go before they are eligible.
pub fn goes_early(l: Link, x: Connection) -> bool
    ensures { result ≡ goes_early l x }
{
    is_on(l) & !is_stamped(x)
}

// How far past the clock an eligibility may lie: the reservation times the gap.
pub fn distance(l: Link, x: Connection) -> u64
    requires { (x.level ≡ 0 → x ≡ no_connection) × ((x.level ≡ 0 → ⊥) → 1 ≤ x.gap) × (x.allowance + bound l x.level < beyond_32_bits) }
    ensures { result ≡ distance l x }
{
    reserve(l, x) * u64::from(x.gap)
}

// What is remembered settles the next eligibility beyond the clock: with an average the n-th before is known, without one the newest lies beyond the clock too.
pub fn settles(m: Member, now: u32) -> bool
    requires { (m.known ≤ max_remembered) × (burst (connection_of m) ≤ max_remembered) }
    ensures { result ≡ settles (connection_of m) now (past_of m) }
{
    let n = packets_in(m.figures.window, m.figures.average);
    if n == 0 {
        return u64::from(now) < after_nth(m, 0, 1, 0);
    }
    n <= m.known
}
