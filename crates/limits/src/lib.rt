// The limits of the code and the lengths of its tables, each once, and the tests of a link and of a connection against them, of both disciplines. The limits of the rules stand in
// `crates/rules/specs/Limits.antt` and `crates/frames/specs/Limits.antt`; the contracts of the code tie these to those.
#![tactic(auto)]

ghost use Rattle.std.specs.Prelude.{◌≡◌, ◌+◌, ◌≤◌, length, take, drop};
ghost use Rattle.rules.specs.Words.{within};
ghost use Rattle.rules.specs.Limits.{max_levels};
ghost use Rattle.rules.specs.Admission.{rising, windows_from, windows_within, link_within, level_within, average_within, kind_within, figures_within};
ghost use Rattle.rules.specs.SoundTest.{connection_sound};
ghost use Rattle.frames.specs.Admission.{framing_within, share_within};
ghost use Rattle.limits.specs.Zeros.{zeros};

use frames::{Framing, Share};
use rules::{Connection, Link};

// ---- the limits of document 01, "Link, connections, places", and of document 02, R-1, R-4, R-6 to R-9 and R-11 to R-13

// Levels of a link.
pub const MAX_LEVELS: u32 = 8;

// Units of the largest packet.
const MAX_LARGEST: u32 = 2048;

// Ticks of silence after each packet.
const MAX_SILENCE: u32 = 64;

// The setting of the stand-by queue: off is 0.
pub const STAND_BY_ON: u32 = 1;

// Ticks of a delay bound.
const MAX_BOUND: u32 = 32768;

// Ticks of a level's window.
const MAX_LEVEL_WINDOW: u32 = 32768;

// Ticks of a gap.
const MAX_GAP: u32 = 65535;

// Ticks of an averaging window, packets in one, and the eligibilities that a connection remembers.
const MAX_WINDOW: u32 = 65535;

const MAX_BURST: u32 = 16;

pub const MAX_REMEMBERED: usize = 16;

// Ticks of an allowance.
const MAX_ALLOWANCE: u32 = 65535;

// Ticks of a frame; units per frame of a connection, and its places.
const MAX_FRAME: u32 = 32768;

const MAX_UNITS: u32 = 2048;

const MAX_PLACES: u32 = 2048;

// Connections.
pub const MAX_CONNECTIONS: usize = 200;

// Packets that all reservations together may reach.
pub const MAX_RESERVED: u64 = 2048;

// Notices that wait.
pub const MAX_NOTICES: usize = 64;

// What notices bear where a connection's number would stand.
pub const NOTICE_NUMBER: u32 = 254;

// The connection that a refused admission gives.
pub const NO_CONNECTION: u32 = 255;

// The clock's end.
pub const CLOCK_END: u32 = 4000000000;

// ---- the tables

// The numbers of a row of the table of connections, nine before the remembered eligibilities; where the rows end; and the numbers of the table, which has two
// behind its rows.
pub const MEMBER_HEAD: usize = 9;

pub const MEMBER_WIDTH: usize = MEMBER_HEAD + MAX_REMEMBERED;

pub const MEMBER_ROWS: usize = MEMBER_WIDTH * MAX_CONNECTIONS;

pub const MEMBERS: usize = MEMBER_ROWS + 2;

// The numbers of a row of the places table and of the table of notices, and of all their rows.
pub const PACKET_WIDTH: usize = 5;

pub const PLACES: usize = PACKET_WIDTH * (MAX_RESERVED as usize);

pub const NOTICES: usize = PACKET_WIDTH * MAX_NOTICES;

// The numbers of a row of the table of shares, and of all its rows.
pub const SHARE_WIDTH: usize = 2;

pub const SHARES: usize = SHARE_WIDTH * MAX_CONNECTIONS;

// Sixteen numbers are all 0.
fn zero_block(block: &[u32; 16]) -> bool
    ensures { result ≡ zeros block.now }
{
    *block == [0; 16]
}

// All numbers from `from` on are 0: sixteen at a time, and one by one where fewer are left.
pub fn zero_from(t: &[u32], from: usize) -> bool
    requires { from ≤ length t.now }
    ensures { result ≡ zeros (drop from t.now) }
{
    let (blocks, rest) = t[from..].as_chunks();
    blocks.iter().all(zero_block) && rest.iter().all(|&x| x == 0)
}

// ---- a link and a connection within their limits

// Bounds that rise strictly from `lowest` on, n of them, none above its limit, and zeros behind.
fn bounds_ok(lowest: u32, n: usize, bounds: [u32; MAX_LEVELS as usize]) -> bool
    requires { n ≤ max_levels }
    ensures { result ≡ rising lowest n bounds }
{
    let mut low = lowest;
    for &d in &bounds[..n] {
        if !is_within(low, MAX_BOUND, d) {
            return false;
        }
        low = d + 1;
    }
    zero_from(&bounds, n)
}

// Windows, n of them, none below its bound, none above its limit, and zeros behind.
fn windows_ok(
    n: usize,
    bounds: [u32; MAX_LEVELS as usize],
    windows: [u32; MAX_LEVELS as usize],
) -> bool
    requires { n ≤ max_levels }
    ensures { result ≡ windows_from n bounds windows }
{
    let mut pairs = bounds[..n].iter().zip(&windows[..n]);
    pairs.all(|(&d, &w)| is_within(d, MAX_LEVEL_WINDOW, w)) && zero_from(&windows, n)
}

// A window for each level, or none: the first tells.
fn own_or_none(l: Link) -> bool
    requires { l.levels ≤ max_levels }
    ensures { result ≡ windows_within l }
{
    let bounds = l.bounds;
    let windows = l.windows;
    if windows[0] == 0 {
        return windows_ok(0, bounds, windows);
    }
    windows_ok(l.levels as usize, bounds, windows)
}

// The limits of a link.
pub fn link_ok(l: Link) -> bool
    ensures { result ≡ link_within l }
{
    if l.levels < 1 {
        return false;
    }
    if MAX_LEVELS < l.levels {
        return false;
    }
    if l.largest < 1 {
        return false;
    }
    if MAX_LARGEST < l.largest {
        return false;
    }
    if MAX_SILENCE < l.silence {
        return false;
    }
    if STAND_BY_ON < l.early {
        return false;
    }
    let bounds = l.bounds;
    if !bounds_ok(l.largest + l.silence, l.levels as usize, bounds) {
        return false;
    }
    own_or_none(l)
}

// Level 1 to n.
pub fn level_ok(l: Link, x: Connection) -> bool
    ensures { result ≡ level_within l x }
{
    if x.level < 1 {
        return false;
    }
    x.level <= l.levels
}

// No average, or a window up to its limit that an average gap of at least the gap divides into 1 to 16 parts.
fn average_ok(x: Connection) -> bool
    requires { 1 ≤ x.gap }
    ensures { result ≡ average_within x }
{
    if x.window == 0 {
        return x.average == 0;
    }
    if MAX_WINDOW < x.window {
        return false;
    }
    if x.average < x.gap {
        return false;
    }
    if x.window % x.average != 0 {
        return false;
    }
    let n = x.window / x.average;
    (1 <= n) & (n <= MAX_BURST)
}

// A connection regulated by its gap has no allowance, and an average or none; one by stamps has an allowance up to its limit, and no average.
fn kind_ok(x: Connection) -> bool
    requires { 1 ≤ x.gap }
    ensures { result ≡ kind_within x }
{
    if x.kind == 0 {
        if x.allowance != 0 {
            return false;
        }
        return average_ok(x);
    }
    if x.kind != 1 {
        return false;
    }
    if MAX_ALLOWANCE < x.allowance {
        return false;
    }
    (x.window == 0) & (x.average == 0)
}

// Gap and size within their limits, and what the kind asks.
pub fn figures_ok(l: Link, x: Connection) -> bool
    ensures { result ≡ figures_within l x }
{
    if x.gap < 1 {
        return false;
    }
    if MAX_GAP < x.gap {
        return false;
    }
    if x.size < 1 {
        return false;
    }
    if l.largest < x.size {
        return false;
    }
    kind_ok(x)
}

// Level and figures within their limits.
pub fn connection_ok(l: Link, x: Connection) -> bool
    ensures { result ≡ connection_sound l x }
{
    if !level_ok(l, x) {
        return false;
    }
    figures_ok(l, x)
}

// ---- a framing and a share within their limits

// From `low` to `high`.
fn is_within(low: u32, high: u32, x: u32) -> bool
    ensures { result ≡ within low high x }
{
    (low <= x) & (x <= high)
}

// The limits of a framing: S with its silence is at most T.
pub fn framing_ok(l: Framing) -> bool
    ensures { result ≡ framing_within l }
{
    let cost = l.largest as u64 + l.silence as u64;
    is_within(1, MAX_FRAME, l.frame)
        & (is_within(1, MAX_LARGEST, l.largest)
            & ((l.silence <= MAX_SILENCE) & (cost <= l.frame as u64)))
}

// The limits of a share.
pub fn share_ok(x: Share) -> bool
    ensures { result ≡ share_within x }
{
    is_within(1, MAX_UNITS, x.units) & is_within(1, MAX_PLACES, x.places)
}
