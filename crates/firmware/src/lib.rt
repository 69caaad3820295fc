// The questions that the hub's firmware asks across the C boundary. Document 01, "Two questions from C firmware", and document 02, R-2, R-6, R-9 and R-12; for C:
// include/mtredovim.h.
#![tactic(auto)]

ghost use Rattle.std.specs.Prelude.{◌≡◌, true, ℕ, ◌+◌, ◌*◌, ◌<◌, ◌≤◌, length};
ghost use Rattle.rules.specs.Words.{every, tabulate};
ghost use Rattle.rules.specs.Limits.{max_connections};
ghost use Rattle.rules.specs.Admission.{link_within, level_test};
ghost use Rattle.rules.specs.SoundTest.{connection_sound};
ghost use Rattle.traces.specs.Trace.{trace_layout};
ghost use Rattle.firmware.specs.Questions.{next_asked, link_of, link_asked, row_asked, well_asked, short_asked};
ghost use Rattle.firmware.specs.Laid.{laid_out};

use fields::read::{one, two};
use limits::{MAX_CONNECTIONS, MEMBERS};
use rules::{Connection, Link, Short};
use traces::Record;

// The bytes of a row: level (1), gap, size, averaging window and average gap (2 each).
const ROW: usize = 9;

// The level of a question that is not well asked.
const NOT_WELL_ASKED: u32 = 255;

// The next eligibility of a connection of the first kind without an average, from a flag (0: no packet of it was accepted), the last eligibility, its gap and the
// present tick.
#[unsafe(no_mangle)]
pub extern "C" fn mtredovim_next_eligibility(flag: u32, last: u32, gap: u32, now: u32) -> u64
    ensures { result ≡ next_asked flag last gap now }
{
    connections::regulator::gap_eligibility(flag, last, gap, now)
}

// The link that an `LK` names, or an `LW`; no link where the record is of another kind.
fn link_of(what: Record) -> Link
    ensures { result ≡ link_of (trace_layout what) }
{
    match what {
        Record::Link {
            levels,
            largest,
            silence,
            bounds,
        } => named::link_named(levels, largest, silence, bounds),
        Record::LinkWindows {
            levels,
            largest,
            silence,
            early,
            bounds,
            windows,
        } => named::windows_named(levels, largest, silence, early, bounds, windows),
        _ => named::no_link(),
    }
}

// The link that the bytes of one whole `LK` or `LW` name.
fn link_asked(lk: &[u8]) -> Link
    ensures { result ≡ link_asked lk.now }
{
    match traces::read(lk) {
        Some((what, taken)) if taken == lk.len() => link_of(what),
        _ => named::no_link(),
    }
}

// The connection of row i: its bytes lie as those of a `CN` behind its mark.
fn row_asked(rows: &[u8], i: usize) -> Connection
    requires { 9 * i + 9 ≤ length rows.now }
    ensures { result ≡ row_asked rows.now i }
{
    let at = ROW * i;
    let row = &rows[at..];
    named::connection_named(
        one(row, 0),
        two(row, 1),
        two(row, 3),
        two(row, 5),
        two(row, 7),
    )
}

// The first n rows are within the limits of connections.
fn rows_ok(l: Link, rows: &[u8], n: usize) -> bool
    requires { 9 * n ≤ length rows.now }
    ensures { result ≡ every n (λ i. connection_sound l (row_asked rows.now i)) }
{
    (0..n).all(|i| limits::connection_ok(l, row_asked(rows, i)))
}

// The connections of the first n rows, put into an empty table.
fn lay_out(rows: &[u8], n: usize, members: &mut [u32])
    requires { (n ≤ max_connections) × (9 * n ≤ length rows.now) × ((i : ℕ) → i < n → 1 ≤ (row_asked rows.now i).level) × (members.old ≡ laid_out 0 rows.now) }
    ensures { members.new ≡ laid_out n rows.now }
{
    for i in 0..n {
        let x = row_asked(rows, i);
        connections::add_member(members, i, x);
    }
}

// The level test over the first n rows.
fn short_over(l: Link, rows: &[u8], n: usize) -> Short
    requires { (link_within l ≡ true) × (n ≤ max_connections) × (9 * n ≤ length rows.now) × (every n (λ i. connection_sound l (row_asked rows.now i)) ≡ true) }
    ensures { result ≡ level_test l (tabulate n (row_asked rows.now)) }
{
    let mut members = [0u32; MEMBERS];
    lay_out(rows, n, &mut members);
    connections::standing_test(l, &members, n)
}

// The link and all rows are within their limits.
fn testable(l: Link, rows: &[u8]) -> bool
    ensures { result ≡ well_asked l rows.now }
{
    if !limits::link_ok(l) {
        return false;
    }
    let n = rows.len() / ROW;
    if rows.len() != ROW * n {
        return false;
    }
    if MAX_CONNECTIONS < n {
        return false;
    }
    rows_ok(l, rows, n)
}

// The level test, from one whole `LK` or `LW` and a table of rows.
fn short_asked(lk: &[u8], rows: &[u8]) -> Short
    ensures { result ≡ short_asked lk.now rows.now }
{
    let l = link_asked(lk);
    if !testable(l, rows) {
        return Short {
            level: NOT_WELL_ASKED,
            units: 0,
        };
    }
    short_over(l, rows, rows.len() / ROW)
}

// The level-test answer: 0 where every level holds, else the lowest that does not, or 255.
#[unsafe(no_mangle)]
pub extern "C" fn mtredovim_short_level(lk: &[u8], rows: &[u8]) -> u8
    ensures { result ≡ (short_asked lk.now rows.now).level }
{
    let short = short_asked(lk, rows);
    short.level as u8
}

// The units by which that level is over; 0 unless one fails.
#[unsafe(no_mangle)]
pub extern "C" fn mtredovim_short_units(lk: &[u8], rows: &[u8]) -> u64
    ensures { result ≡ (short_asked lk.now rows.now).units }
{
    let over = short_asked(lk, rows);
    over.units
}
