// Whether a hub and three lent tables are sound: exactly, for any numbers and tables of any length.
#![tactic(auto)]

mod pace; // pace.rt: the rows of each connection, compared with each other
mod sums; // sums.rt: the two numbers behind the rows of the table of connections

ghost use Rattle.std.specs.Prelude.{◌≡◌, true, List, [], ℕ, ◌<◌, ◌≤◌, length};
ghost use Rattle.rules.specs.Words.{every, each};
ghost use Rattle.rules.specs.Limits.{max_connections, max_reserved};
ghost use Rattle.rules.specs.Admission.{passes};
ghost use Rattle.rules.specs.SoundTest.{all_zero, number_sound, admissions_sound, row_sound, rows_sound};
ghost use Rattle.tables.specs.Places.{rows};
ghost use Rattle.connections.specs.Members.{members_length, member_in, members_in, connections_in, member_formed, rows_formed, members_formed};
ghost use Rattle.connections.specs.Within.{Within};
ghost use Rattle.state.specs.View.{tables, view, tables_formed, sound_hub};
ghost use Rattle.sound.specs.Parts.{unused, linked_sound};

use connections::Member;
use connections::stand_by::goes_early;
use limits::{CLOCK_END, MAX_CONNECTIONS, MAX_REMEMBERED, MAX_RESERVED, zero_from};
use line_tests::Service;
use rules::{Link, Packet};
use state::Hub;
use tables::rows::Rows;

// ---- the shape of the tables

// No more is remembered of a connection than there is room for, zeros are behind it, and the mark is 0 or 1.
fn member_formed(m: Member) -> bool
    ensures { result ≡ member_formed m }
{
    if (MAX_REMEMBERED as u32) < m.known {
        return false;
    }
    let ticks = m.ticks;
    zero_from(&ticks, m.known as usize) & (m.mark <= 1)
}

// The same of row i.
fn row_formed(members: &[u32], i: usize) -> bool
    requires { (length members.now ≡ members_length) × (i < max_connections) }
    ensures { result ≡ member_formed (member_in members.now i) }
{
    member_formed(connections::member_at(members, i))
}

// The same of each row.
fn each_formed(members: &[u32]) -> bool
    requires { length members.now ≡ members_length }
    ensures { result ≡ each member_formed (members_in members.now) }
{
    (0..MAX_CONNECTIONS).all(|i| row_formed(members, i))
}

// The table of connections has its length, rows as they must be, and behind them the two numbers that sum them up.
fn members_formed(members: &[u32]) -> bool
    ensures { result ≡ members_formed members.now }
{
    if members.len() != limits::MEMBERS {
        return false;
    }
    if !each_formed(members) {
        return false;
    }
    sums::sums_ok(members)
}

// All three tables.
fn tables_formed(members: &[u32], places: Rows, notices: Rows) -> bool
    ensures { result ≡ tables_formed (tables members.now places.entry.table.now notices.entry.table.now) }
{
    if !line_tests::places_formed(places) {
        return false;
    }
    if !members_formed(members) {
        return false;
    }
    line_tests::notices_formed(notices)
}

// ---- with no link set

// The rest of the link is zero.
pub fn blank_ok(l: Link) -> bool
    ensures { result ≡ all_zero l }
{
    let bounds = l.bounds;
    let windows = l.windows;
    let lists = zero_from(&bounds, 0) & zero_from(&windows, 0);
    (l.largest == 0) & ((l.silence == 0) & ((l.early == 0) & lists))
}

// Everything is zero: the link, the clock, the tables and the line.
fn unused_ok(h: Hub, members: &[u32], held: usize, waiting: usize) -> bool
    ensures { result ≡ unused h members.now held waiting }
{
    let rows = zero_from(members, 0) & (held == 0) & (waiting == 0);
    let line = (h.wire.serving == 0) & (h.wire.to_go == 0) & (h.wire.silent == 0);
    blank_ok(h.link) & (h.clock == 0) & rows & line
}

// ---- with one: the link and the connections

// Number c, whatever the other tables have: its owner is within the limits, or it is free and everything of it is zero.
fn number_ok(h: Hub, members: &[u32], c: usize) -> bool
    requires { (rows_formed members.now ≡ true) × (c < max_connections) }
    ensures { result ≡ number_sound (view h (tables members.now [] [])) c }
{
    let x = connections::connection_at(members, c);
    if x.level == 0 {
        return connections::is_free(members, c);
    }
    limits::connection_ok(h.link, x)
}

// All numbers.
fn numbers_ok(h: Hub, members: &[u32]) -> bool
    requires { rows_formed members.now ≡ true }
    ensures { (p q : List ℕ) → result ≡ every max_connections (number_sound (view h (tables members.now p q))) }
{
    (0..MAX_CONNECTIONS).all(|c| number_ok(h, members, c))
}

// All level tests hold.
fn tests_ok(h: Hub, members: &[u32]) -> bool
    requires { (members_formed members.now ≡ true) × Within h.link (connections_in members.now) }
    ensures { result ≡ passes h.link (connections_in members.now) }
{
    let short = connections::standing_test(h.link, members, connections::used(members));
    short.level == 0
}

// Link, connections, tests and reservations within the rules.
fn admissions_ok(h: Hub, members: &[u32]) -> bool
    requires { members_formed members.now ≡ true }
    ensures { (p q : List ℕ) → result ≡ admissions_sound (view h (tables members.now p q)) }
{
    if !limits::link_ok(h.link) {
        return false;
    }
    if !numbers_ok(h, members) {
        return false;
    }
    if !tests_ok(h, members) {
        return false;
    }
    connections::reserved_by(h.link, members, connections::used(members)) <= MAX_RESERVED
}

// ---- the rows

// A held row by itself: a number that has an owner, a length from 1 to its size, arrival, eligibility.
fn row_ok(h: Hub, members: &[u32], p: Packet) -> bool
    requires { length members.now ≡ members_length }
    ensures { result ≡ row_sound (connections_in members.now) h.clock p }
{
    let x = connections::figures_of(members, p.connection);
    if x.level == 0 {
        return false;
    }
    (1 <= p.len) & (p.len <= x.size) & ((p.arrival <= h.clock) & (p.arrival <= p.eligibility))
}

// All held rows, each by itself.
fn rows_ok(h: Hub, members: &[u32], places: Rows) -> bool
    requires { length members.now ≡ members_length }
    ensures { result ≡ each (row_sound (connections_in members.now) h.clock) (rows places.entry.table.now) }
{
    (0..places.len()).all(|i| row_ok(h, members, places.at(i)))
}

// The clock, the rows by themselves, and the rows of each connection among themselves.
fn held_ok(h: Hub, members: &[u32], places: Rows) -> bool
    requires { (length (rows places.table.now) ≤ max_reserved) × (members_formed members.now ≡ true) × Within h.link (connections_in members.now) }
    ensures { (q : List ℕ) → result ≡ rows_sound (view h (tables members.now places.entry.table.now q)) }
{
    if CLOCK_END < h.clock {
        return false;
    }
    if !rows_ok(h, members, places) {
        return false;
    }
    pace::paced_ok(h, members, places)
}

// ---- the whole

// With a link set: the clauses of the rules.
fn linked_ok(h: Hub, members: &[u32], places: Rows, notices: Rows) -> bool
    requires { tables_formed (tables members.now places.table.now notices.table.now) ≡ true }
    ensures { result ≡ linked_sound (view h (tables members.now places.entry.table.now notices.entry.table.now)) }
{
    if !admissions_ok(h, members) {
        return false;
    }
    if !held_ok(h, members, places) {
        return false;
    }
    let line = Service {
        clock: h.clock,
        serving: h.wire.serving,
        to_go: h.wire.to_go,
        silent: h.wire.silent,
    };
    let early = goes_early(h.link, connections::figures_of(members, h.wire.serving));
    line_tests::wire_ok(line, early, h.link.largest, h.link.silence, places, notices)
}

// The tables are formed, and with them everything is zero, or the clauses hold.
fn counted_ok(h: Hub, members: &[u32], places: Rows, notices: Rows) -> bool
    ensures { result ≡ sound_hub h (tables members.now places.entry.table.now notices.entry.table.now) }
{
    if !tables_formed(members, places, notices) {
        return false;
    }
    if h.link.levels == 0 {
        return unused_ok(h, members, places.len(), notices.len());
    }
    linked_ok(h, members, places, notices)
}

// Whether a hub with its tables of connections, of places and of notices is sound.
pub fn is_sound(h: Hub, members: &[u32], places: &[u32], notices: &[u32]) -> bool
    ensures { result ≡ sound_hub h (tables members.now places.now notices.now) }
{
    counted_ok(h, members, Rows::of(places), Rows::of(notices))
}
