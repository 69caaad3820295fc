// Offers that bring a stamp, and connections that want one: the delay-jitter regulator. Document 02, R-9.
ghost use Rattle.std.specs.Prelude.{◌≡◌, Bool, ◌+◌, ◌≤◌};
ghost use Rattle.rules.specs.Limits.{max_remembered};
ghost use Rattle.rules.specs.Admission.{burst, stamped};
ghost use Rattle.rules.specs.Service.{suits, eligibility_by, untimely};
ghost use Rattle.connections.specs.Rows.{connection_of, past_of};
ghost use Rattle.tables.specs.Options.{option_in};

use super::regulator::{after_nth, next_eligibility};
use super::{Member, wide};
use rules::Connection;

// Which kind of connection wants a stamp.
const BY_STAMPS: u32 = 1;

// A connection is regulated by stamps.
pub fn is_stamped(x: Connection) -> bool
    ensures { result ≡ stamped x }
{
    x.kind == BY_STAMPS
}

// An offer suits a connection: it brings a stamp exactly where the connection is regulated by stamps.
pub fn suits(x: Connection, stamp: Option<u32>) -> bool
    ensures { result ≡ suits x (option_in stamp) }
{
    match stamp {
        Some(_) => is_stamped(x),
        None => !is_stamped(x),
    }
}

// The eligibility that a stamp gives.
fn behind_stamp(x: Connection, stamp: u32) -> u64
    ensures { result ≡ stamp + x.allowance }
{
    wide(stamp) + wide(x.allowance)
}

// A stamp is out of time: it is later than now, or what it gives is before now or less than a gap behind the packet before.
pub fn untimely(m: Member, now: u32, stamp: u32) -> bool
    requires { m.known ≤ max_remembered }
    ensures { result ≡ untimely (connection_of m) (past_of m) now stamp }
{
    if now < stamp {
        return true;
    }
    let e = behind_stamp(m.figures, stamp);
    if e < wide(now) {
        return true;
    }
    e < after_nth(m, 0, 1, m.figures.gap)
}

// The eligibility of an offer: a stamp's, where it brings one, else the connection's next.
pub fn eligibility_by(m: Member, now: u32, stamp: Option<u32>) -> u64
    requires { (m.known ≤ max_remembered) × (burst (connection_of m) ≤ max_remembered) }
    ensures { result ≡ eligibility_by (connection_of m) (past_of m) now (option_in stamp) }
{
    match stamp {
        Some(at) => behind_stamp(m.figures, at),
        None => next_eligibility(m, now),
    }
}
