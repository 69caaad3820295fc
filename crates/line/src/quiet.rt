// How long the line is quiet: nothing starts and nothing departs. What waits for a packet is each discipline's own.
ghost use Rattle.std.specs.Prelude.{◌≡◌, ◌+◌, ◌≤◌};
ghost use Rattle.rules.specs.Limits.{clock_end};
ghost use Rattle.line.specs.Quiet.{awaits, taken_for, wire_passed, hub_passed};

use super::{Hub, Wire, is_idle};

// The line waits for a packet: nothing is in service, no silence is left to run, and no notice waits.
pub fn awaits(w: Wire, notices: &[u32]) -> bool
    ensures { result ≡ awaits w notices.now }
{
    is_idle(w) && tables::none(notices)
}

// Where it does not: all but the last unit of what is in service, or the rest of a silence; none where a notice starts at once.
pub fn taken_for(w: Wire) -> u32
    ensures { result ≡ taken_for w }
{
    if w.to_go != 0 {
        return w.to_go - 1;
    }
    w.silent
}

// The line k ticks on, where nothing starts and nothing departs in them.
pub fn passed(w: Wire, k: u16) -> Wire
    ensures { result ≡ wire_passed w k }
{
    Wire {
        to_go: w.to_go.saturating_sub(k as u32),
        silent: w.silent.saturating_sub(k as u32),
        ..w
    }
}

// What is kept k ticks on, where nothing starts and nothing departs in them.
pub fn pass_over<L: Copy>(h: Hub<L>, k: u16) -> Hub<L>
    requires { h.clock + k ≤ clock_end }
    ensures { result ≡ hub_passed h k }
{
    Hub {
        clock: h.clock + k as u32,
        wire: passed(h.wire, k),
        ..h
    }
}
