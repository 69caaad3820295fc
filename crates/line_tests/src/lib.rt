// The parts of the soundness test that are the same for both disciplines: the shape of the places table and of the table of notices, the rows of each connection counted, the
// notices by themselves, and the line.
#![tactic(auto)]

ghost use Rattle.std.specs.Prelude.{◌≡◌, [], ℕ, ◌+◌, ◌<◌, ◌≤◌, length, get_or};
ghost use Rattle.rules.specs.Limits.{max_notices, beyond_32_bits};
ghost use Rattle.rules.specs.Words.{each};
ghost use Rattle.rules.specs.SoundLine.{waits, busy_line, wire_sound};
ghost use Rattle.tables.specs.Table.{formed};
ghost use Rattle.tables.specs.Places.{packet_width, places_length, rows};
ghost use Rattle.tables.specs.Notices.{notice_of, notices_in, marked, notices_formed};
ghost use Rattle.line_tests.specs.Counts.{Counts, raised, Countable};
ghost use Rattle.line_tests.specs.Lines.{wire_of, line_holds};

use limits::{NOTICE_NUMBER, PACKET_WIDTH, zero_from};
use rules::Packet;
use tables::rows::Rows;

// What the line does at a tick of the clock: the number that it serves, the units to go, and the silence still to run.
#[derive(Clone, Copy)]
pub struct Service {
    pub clock: u32,
    pub serving: u32,
    pub to_go: u32,
    pub silent: u32,
}

// ---- the shape of the tables

// The places table has its length, and zeros behind its rows.
pub fn places_formed(places: Rows) -> bool
    ensures { result ≡ formed packet_width places_length places.entry.table.now }
{
    let table = places.table();
    table.len() == limits::PLACES && zero_from(table, PACKET_WIDTH * places.len())
}

// A row of the table of notices bears their number, and an eligibility that is its arrival.
fn marked_ok(p: Packet) -> bool
    ensures { result ≡ marked p }
{
    (p.connection == NOTICE_NUMBER) & (p.eligibility == p.arrival)
}

// All rows of the table of notices.
fn all_marked(notices: Rows) -> bool
    ensures { result ≡ each marked (rows notices.entry.table.now) }
{
    (0..notices.len()).all(|i| marked_ok(notices.at(i)))
}

// The table of notices has its length, zeros behind its rows, and marks as they must be.
pub fn notices_formed(notices: Rows) -> bool
    ensures { result ≡ notices_formed notices.entry.table.now }
{
    let table = notices.table();
    if table.len() != limits::NOTICES {
        return false;
    }
    zero_from(table, PACKET_WIDTH * notices.len()) && all_marked(notices)
}

// ---- the rows of each connection, counted

// Number c of the list, raised by n.
pub fn raise(seen: &mut [u32], c: usize, n: u32)
    requires { (c < length seen.old) × (get_or seen.old c 0 + n < beyond_32_bits) }
    ensures { seen.new ≡ raised seen.old c n }
{
    seen[c] += n;
}

// How many rows each connection has.
pub fn count_rows(places: Rows, seen: &mut [u32])
    requires { Countable places.table.now × Counts length seen.old [] }
    ensures { Counts length seen.new (rows places.entry.table.now) }
{
    for i in 0..places.len() {
        raise(seen, places.at(i).connection as usize, 1);
    }
}

// ---- the notices

// A notice by itself: a length from 1 to S, and its arrival.
fn notice_ok(largest: u32, clock: u32, p: Packet) -> bool
    ensures { result ≡ waits largest clock (notice_of p) }
{
    (1 <= p.len) & (p.len <= largest) & (p.arrival <= clock)
}

// All notices, each by itself.
pub fn notices_ok(largest: u32, clock: u32, notices: Rows) -> bool
    ensures { result ≡ each (waits largest clock) (notices_in notices.entry.table.now) }
{
    (0..notices.len()).all(|i| notice_ok(largest, clock, notices.at(i)))
}

// ---- the line

// What is in service has one unit to go or more: the first notice has so many, or the first row of its connection, which is eligible, unless it may go `early`.
fn busy_ok(x: Service, early: bool, places: Rows, notices: Rows) -> bool
    ensures { result ≡ busy_line (λ _. early) x.clock (wire_of x places.entry.table.now notices.entry.table.now) }
{
    if x.serving == NOTICE_NUMBER {
        if notices.is_empty() {
            return false;
        }
        return (1 <= x.to_go) & (x.to_go <= notices.at(0).len);
    }
    let Some(i) = places.find(x.serving) else {
        return false;
    };
    let p = places.at(i);
    ((1 <= x.to_go) & (x.to_go <= p.len)) & (early | (p.eligibility <= x.clock))
}

// An idle line serves nobody, and has no more silence to run than the link's; a line that serves has none.
pub fn line_ok(x: Service, early: bool, silence: u32, places: Rows, notices: Rows) -> bool
    ensures { result ≡ line_holds (λ _. early) silence x.clock (wire_of x places.entry.table.now notices.entry.table.now) }
{
    if x.to_go == 0 {
        return (x.serving == 0) & (x.silent <= silence);
    }
    x.silent == 0 && busy_ok(x, early, places, notices)
}

// The notices and the line: all that is asked of a line with what waits for it.
pub fn wire_ok(
    x: Service,
    early: bool,
    largest: u32,
    silence: u32,
    places: Rows,
    notices: Rows,
) -> bool
    requires { length (rows notices.table.now) ≤ max_notices }
    ensures { result ≡ wire_sound (λ _. early) largest silence x.clock (wire_of x places.entry.table.now notices.entry.table.now) }
{
    notices_ok(largest, x.clock, notices) && line_ok(x, early, silence, places, notices)
}
