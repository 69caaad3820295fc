// The rows of each connection, and the units that it has used in this frame, counted and compared with its figures.
ghost use Rattle.std.specs.Prelude.{◌≡◌, true, List, [], ℕ, ◌+◌, ◌<◌, ◌≤◌, length, get_or};
ghost use Rattle.rules.specs.Limits.{max_connections, beyond_32_bits};
ghost use Rattle.rules.specs.Words.{every, total};
ghost use Rattle.frames.specs.Service.{newly};
ghost use Rattle.frames.specs.SoundTest.{share_sound};
ghost use Rattle.tables.specs.Places.{rows};
ghost use Rattle.shares.specs.Shares.{shares_in, shares_formed};
ghost use Rattle.line_tests.specs.Counts.{Counts};
ghost use Rattle.framed_state.specs.View.{tables, view};
ghost use Rattle.framed_sound.specs.Parts.{Measured, share_with};

use framed_state::Frames;
use frames::Framing;
use limits::MAX_CONNECTIONS;
use line_tests::{count_rows, raise};
use rules::Packet;
use shares::counted::Shares;
use tables::rows::Rows;

// What a row counts against the units of this frame: its length and the silence, while it is not eligible.
pub fn newly(l: Framing, clock: u32, p: Packet) -> u32
    requires { p.len + l.silence < beyond_32_bits }
    ensures { result ≡ newly l clock p }
{
    if p.eligibility <= clock {
        return 0;
    }
    p.len + l.silence
}

// The units that each connection has used in this frame.
fn count_units(h: Frames, places: Rows, taken: &mut [u32])
    requires { Measured h.link places.table.now × Counts (total (newly h.link h.clock)) taken.old [] }
    ensures { Counts (total (newly h.link h.clock)) taken.new (rows places.entry.table.now) }
{
    for i in 0..places.len() {
        let p = places.at(i);
        raise(taken, p.connection as usize, newly(h.link, h.clock, p));
    }
}

// Number c, of which n packets are held and m units are used: within its places and its units.
fn share_holds(shares: Shares, c: usize, n: u32, m: u32) -> bool
    requires { c < length (shares_in shares.table.now) }
    ensures { result ≡ share_with shares.entry.table.now n m c }
{
    let x = shares.at(c);
    (n <= x.places) & (m <= x.units)
}

// All that stand, with what was counted.
fn each_holds(shares: Shares, seen: &[u32], taken: &[u32]) -> bool
    requires { (length (shares_in shares.table.now) ≤ max_connections) × (length seen.now ≡ max_connections) × (length taken.now ≡ max_connections) }
    ensures { result ≡ every (length (shares_in shares.entry.table.now)) (λ c. share_with shares.entry.table.now (get_or seen.now c 0) (get_or taken.now c 0) c) }
{
    (0..shares.len()).all(|c| share_holds(shares, c, seen[c], taken[c]))
}

// No connection holds more than its places, and none has used more than its units.
pub(crate) fn shares_ok(h: Frames, shares: Shares, places: Rows) -> bool
    requires { (length (shares_in shares.table.now) ≤ max_connections) × Measured h.link places.table.now }
    ensures { (q : List ℕ) → result ≡ every (length (shares_in shares.entry.table.now)) (share_sound (view h (tables shares.entry.table.now places.entry.table.now q))) }
{
    let mut seen = [0u32; MAX_CONNECTIONS];
    let mut taken = [0u32; MAX_CONNECTIONS];
    count_rows(places, &mut seen);
    count_units(h, places, &mut taken);
    each_holds(shares, &seen, &taken)
}
