// Whether a `Frames` and three lent tables are sound: exactly, for any numbers and tables of any length.
#![tactic(auto)]

pub mod tally; // tally.rt: the rows of each connection and the units that it has used, counted

ghost use Rattle.std.specs.Prelude.{◌≡◌, true, List, ℕ, ◌≤◌, length};
ghost use Rattle.rules.specs.Limits.{max_reserved};
ghost use Rattle.rules.specs.Words.{every, each};
ghost use Rattle.frames.specs.Limits.{max_frame};
ghost use Rattle.frames.specs.Model.{nth};
ghost use Rattle.frames.specs.Admission.{share_within};
ghost use Rattle.frames.specs.Service.{next_frame};
ghost use Rattle.frames.specs.SoundTest.{admissions_sound, row_sound, never_falls, rows_sound, in_turn_sound};
ghost use Rattle.tables.specs.Places.{rows};
ghost use Rattle.shares.specs.Shares.{shares_in, shares_formed};
ghost use Rattle.framed_state.specs.View.{tables, view, tables_formed, sound_frames};
ghost use Rattle.framed_sound.specs.Parts.{unused, linked_sound};

use framed_state::Frames;
use limits::{CLOCK_END, MAX_RESERVED, NOTICE_NUMBER, SHARE_WIDTH, zero_from};
use line_tests::Service;
use rules::Packet;
use shares::counted::Shares;
use tables::rows::Rows;

// ---- the shape of the tables

// The table of shares has its length, and zeros behind its rows.
fn table_formed(shares: Shares) -> bool
    ensures { result ≡ shares_formed shares.entry.table.now }
{
    let table = shares.table();
    table.len() == limits::SHARES && zero_from(table, SHARE_WIDTH * shares.len())
}

// All three tables.
fn tables_formed(shares: Shares, places: Rows, notices: Rows) -> bool
    ensures { result ≡ tables_formed (tables shares.entry.table.now places.entry.table.now notices.entry.table.now) }
{
    if !line_tests::places_formed(places) {
        return false;
    }
    if !table_formed(shares) {
        return false;
    }
    line_tests::notices_formed(notices)
}

// ---- with no link set

// Everything is zero: the link, the clock, the tables and the line.
fn unused_ok(h: Frames, standing: usize, held: usize, waiting: usize) -> bool
    ensures { result ≡ unused h standing held waiting }
{
    let line = (h.wire.serving == 0) & ((h.wire.to_go == 0) & (h.wire.silent == 0));
    let rows = (h.clock == 0) & ((held == 0) & ((waiting == 0) & line));
    ((h.link.largest == 0) & (h.link.silence == 0)) & ((standing == 0) & rows)
}

// ---- with one: the link and the connections

// Each connection is within its limits.
fn each_within(shares: Shares) -> bool
    ensures { result ≡ every (length (shares_in shares.entry.table.now)) (λ c. share_within (nth (shares_in shares.entry.table.now) c)) }
{
    (0..shares.len()).all(|c| limits::share_ok(shares.at(c)))
}

// Link and connections within their limits, and both sums.
fn admissions_ok(h: Frames, shares: Shares) -> bool
    requires { shares_formed shares.table.now ≡ true }
    ensures { (p q : List ℕ) → result ≡ admissions_sound (view h (tables shares.entry.table.now p q)) }
{
    if !limits::framing_ok(h.link) {
        return false;
    }
    if !each_within(shares) {
        return false;
    }
    let cost = h.link.largest as u64 + h.link.silence as u64;
    let room = h.link.frame as u64 - cost;
    let units = shares::units_of_all(shares.table(), shares.len());
    let places = shares::places_of_all(shares.table(), shares.len());
    (units <= room) & (places <= MAX_RESERVED)
}

// ---- the rows

// The start of the frame after that of tick t.
pub fn next_start(frame: u32, t: u32) -> u64
    requires { 1 ≤ frame }
    ensures { result ≡ next_frame frame t }
{
    ((t / frame) as u64 + 1) * frame as u64
}

// A held row by itself: a number that stands, a length from 1 to S, arrival, eligibility.
fn row_ok(h: Frames, shares: Shares, p: Packet) -> bool
    requires { (shares_formed shares.table.now ≡ true) × (1 ≤ h.link.frame) }
    ensures { result ≡ row_sound h.link (shares_in shares.entry.table.now) h.clock p }
{
    let stands = shares::stands(shares.table(), p.connection);
    let next = next_start(h.link.frame, p.arrival);
    let len = (1 <= p.len) & (p.len <= h.link.largest);
    stands & (len & ((p.arrival <= h.clock) & (p.eligibility as u64 == next)))
}

// All held rows, each by itself.
fn rows_ok(h: Frames, shares: Shares, places: Rows) -> bool
    requires { (shares_formed shares.table.now ≡ true) × (1 ≤ h.link.frame) }
    ensures { result ≡ each (row_sound h.link (shares_in shares.entry.table.now) h.clock) (rows places.entry.table.now) }
{
    (0..places.len()).all(|i| row_ok(h, shares, places.at(i)))
}

// In row order eligibilities never fall.
fn in_order(places: Rows) -> bool
    ensures { result ≡ never_falls 0 (rows places.entry.table.now) }
{
    let mut low: u32 = 0;
    for i in 0..places.len() {
        let p = places.at(i);
        if p.eligibility < low {
            return false;
        }
        low = p.eligibility;
    }
    true
}

// The clock, the rows by themselves, their order, and the rows of each connection together.
fn held_ok(h: Frames, shares: Shares, places: Rows) -> bool
    requires held { (length (rows places.table.now) ≤ max_reserved) × (shares_formed shares.table.now ≡ true) }
    requires by_index { (p q : List ℕ) → admissions_sound (view h (tables shares.table.now p q)) ≡ true }
    ensures { (q : List ℕ) → result ≡ rows_sound (view h (tables shares.entry.table.now places.entry.table.now q)) }
{
    if CLOCK_END < h.clock {
        return false;
    }
    if !rows_ok(h, shares, places) {
        return false;
    }
    if !in_order(places) {
        return false;
    }
    tally::shares_ok(h, shares, places)
}

// ---- the line

// A packet in service is the first row of all.
fn in_turn(h: Frames, places: Rows) -> bool
    ensures { (m q : List ℕ) → result ≡ in_turn_sound (view h (tables m places.entry.table.now q)) }
{
    if h.wire.to_go == 0 {
        return true;
    }
    if h.wire.serving == NOTICE_NUMBER {
        return true;
    }
    if places.is_empty() {
        return false;
    }
    places.at(0).connection == h.wire.serving
}

// ---- the whole

// With a link set: the clauses of the rules.
fn linked_ok(h: Frames, shares: Shares, places: Rows, notices: Rows) -> bool
    requires { tables_formed (tables shares.table.now places.table.now notices.table.now) ≡ true }
    ensures { result ≡ linked_sound (view h (tables shares.entry.table.now places.entry.table.now notices.entry.table.now)) }
{
    if !admissions_ok(h, shares) {
        return false;
    }
    if !held_ok(h, shares, places) {
        return false;
    }
    let line = Service {
        clock: h.clock,
        serving: h.wire.serving,
        to_go: h.wire.to_go,
        silent: h.wire.silent,
    };
    if !line_tests::wire_ok(line, false, h.link.largest, h.link.silence, places, notices) {
        return false;
    }
    in_turn(h, places)
}

// The tables are formed, and with them everything is zero, or the clauses hold.
fn counted_ok(h: Frames, shares: Shares, places: Rows, notices: Rows) -> bool
    ensures { result ≡ sound_frames h (tables shares.entry.table.now places.entry.table.now notices.entry.table.now) }
{
    if !tables_formed(shares, places, notices) {
        return false;
    }
    if h.link.frame == 0 {
        return unused_ok(h, shares.len(), places.len(), notices.len());
    }
    linked_ok(h, shares, places, notices)
}

// Whether a `Frames` with its tables of shares, of places and of notices is sound.
pub fn is_sound(h: Frames, shares: &[u32], places: &[u32], notices: &[u32]) -> bool
    ensures { result ≡ sound_frames h (tables shares.now places.now notices.now) }
{
    counted_ok(h, Shares::of(shares), Rows::of(places), Rows::of(notices))
}
