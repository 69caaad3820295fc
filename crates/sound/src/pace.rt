// The part of the test that compares rows of a connection with each other and with what is remembered of it, in one pass over the rows.
ghost use Rattle.std.specs.Prelude.{◌≡◌, true, ◌&&◌, List, [], ℕ, ◌+◌, ◌≤◌, ◌<◌, length, get_or, drop};
ghost use Rattle.rules.specs.Limits.{max_connections, max_reserved, max_remembered, beyond_32_bits};
ghost use Rattle.rules.specs.Words.{every};
ghost use Rattle.rules.specs.Model.{nth};
ghost use Rattle.rules.specs.Admission.{burst, distance, ahead, charge_time};
ghost use Rattle.rules.specs.Service.{remember};
ghost use Rattle.rules.specs.SoundState.{margin};
ghost use Rattle.rules.specs.SoundTest.{latest_by_gap, latest, latest_early, last_tick, in_pace, paced, left_in_time, queues_sound, closed_sound};
ghost use Rattle.tables.specs.Places.{rows};
ghost use Rattle.connections.specs.Members.{connections_in, member_formed, rows_formed};
ghost use Rattle.connections.specs.Rows.{connection_of, past_of};
ghost use Rattle.connections.specs.Within.{Within};
ghost use Rattle.state.specs.View.{tables, view};
ghost use Rattle.line_tests.specs.Counts.{Counts};
ghost use Rattle.sound.specs.Pace.{past_in, with_past, Remembers, past_with, Names, left_with, closed_with, Reserves};

use connections::Member;
use connections::closing::{charge_over, charge_time};
use connections::regulator::{after_nth, earliest_behind};
use connections::stand_by::{distance, goes_early, settles};
use limits::{MAX_CONNECTIONS, MEMBERS};
use rules::{Connection, Link, Packet};
use state::Hub;
use tables::rows::Rows;

// ---- before the pass: what has left

// Connection c forgets its newest n, and nothing is written where n is 0.
fn forget_some(table: &mut [u32], c: usize, n: u32)
    requires { (rows_formed table.old ≡ true) × (c < max_connections) }
    ensures { table.new ≡ with_past table.old c (drop n (past_in table.old c)) }
{
    if n == 0 {
        return;
    }
    connections::forget(table, c, n);
}

// Each connection forgets as many as it has rows, so that what has left remains.
fn forget_rows(table: &mut [u32], seen: &[u32])
    requires { (rows_formed table.old ≡ true) × (length seen.now ≡ max_connections) }
    ensures { Remembers table.old table.new (λ c. drop (get_or seen.now c 0) (past_in table.old c)) }
{
    for c in 0..MAX_CONNECTIONS {
        forget_some(table, c, seen[c]);
    }
}

// The last tick at which what has left may lie: the clock, or the distance past it where the connection's packets may go before they are eligible.
fn last_left(l: Link, x: Connection, clock: u32) -> u64
    requires { Reserves l x }
    ensures { result ≡ clock + margin (ahead l x) }
{
    if goes_early(l, x) {
        return u64::from(clock) + distance(l, x);
    }
    u64::from(clock)
}

// What is remembered keeps the spacing, and lies at or before the tick `last`.
fn left_in_time(m: Member, last: u64) -> bool
    requires { (member_formed m ≡ true) × (burst (connection_of m) ≤ max_remembered) }
    ensures { result ≡ left_in_time (connection_of m) last (past_of m) }
{
    for k in 0..m.known {
        let e = u64::from(connections::regulator::tick_at(m, k));
        if e < earliest_behind(m, k + 1) {
            return false;
        }
        if last < e {
            return false;
        }
    }
    true
}

// Number c, of which n packets are held; of a free one nothing is asked.
fn left_ok(h: Hub, table: &[u32], c: usize, n: u32) -> bool
    requires { (rows_formed table.now ≡ true) × (c < max_connections) × Within h.link (connections_in table.now) }
    ensures { result ≡ left_with h table.now n c }
{
    let x = connections::connection_at(table, c);
    if x.level == 0 {
        return true;
    }
    if connections::reserve(h.link, x) < u64::from(n) {
        return false;
    }
    let m = connections::member_at(table, c);
    left_in_time(m, last_left(h.link, x, h.clock))
}

// All numbers, with the rows that were counted.
fn each_left_ok(h: Hub, table: &[u32], seen: &[u32]) -> bool
    requires { (rows_formed table.now ≡ true) × (length seen.now ≡ max_connections) × Within h.link (connections_in table.now) }
    ensures { result ≡ every max_connections (λ c. left_with h table.now (get_or seen.now c 0) c) }
{
    (0..MAX_CONNECTIONS).all(|c| left_ok(h, table, c, seen[c]))
}

// ---- the pass

// How late the next eligibility may be, of a connection regulated by its gap.
fn latest_by_gap(m: Member, clock: u32) -> u64
    requires { (m.known ≤ max_remembered) × (burst (connection_of m) ≤ max_remembered) }
    ensures { result ≡ latest_by_gap (connection_of m) clock (past_of m) }
{
    let x = m.figures;
    let by_gap = after_nth(m, 0, 1, x.gap);
    let n = connections::packets_in(x.window, x.average);
    if n == 0 {
        return by_gap.max(u64::from(clock) + u64::from(x.gap));
    }
    if m.known < n {
        return by_gap.max(u64::from(clock) + u64::from(x.window));
    }
    by_gap.max(after_nth(m, 0, n, x.window))
}

// How late the next eligibility may be: by stamps, the allowance past the clock.
fn latest_of(m: Member, clock: u32) -> u64
    requires { (m.known ≤ max_remembered) × (burst (connection_of m) ≤ max_remembered) }
    ensures { result ≡ latest (connection_of m) clock (past_of m) }
{
    if connections::stamps::is_stamped(m.figures) {
        return u64::from(clock) + u64::from(m.figures.allowance);
    }
    latest_by_gap(m, clock)
}

// How late the next eligibility may be, of a connection whose packets may go before they are eligible: the distance past the clock, and where those that are
// remembered settle it no later than they allow.
fn latest_early(l: Link, m: Member, clock: u32) -> u64
    requires { (m.known ≤ max_remembered) × (burst (connection_of m) ≤ max_remembered) × Reserves l (connection_of m) }
    ensures { result ≡ latest_early (connection_of m) (distance l (connection_of m)) clock (past_of m) }
{
    let farthest = u64::from(clock) + distance(l, m.figures);
    if !settles(m, clock) {
        return farthest;
    }
    let settled = u64::from(clock).max(earliest_behind(m, 0));
    if farthest < settled {
        return farthest;
    }
    settled
}

// The last tick at which the next eligibility may lie.
fn last_tick(l: Link, m: Member, clock: u32) -> u64
    requires { (m.known ≤ max_remembered) × (burst (connection_of m) ≤ max_remembered) × Reserves l (connection_of m) }
    ensures { result ≡ last_tick (connection_of m) (ahead l (connection_of m)) clock (past_of m) }
{
    if goes_early(l, m.figures) {
        return latest_early(l, m, clock);
    }
    u64::from(clock).max(latest_of(m, clock))
}

// Whether the eligibility e keeps the pace behind those that are remembered.
fn in_pace(l: Link, m: Member, clock: u32, e: u32) -> bool
    requires { (m.known ≤ max_remembered) × (burst (connection_of m) ≤ max_remembered) × Reserves l (connection_of m) }
    ensures { result ≡ in_pace (connection_of m) (ahead l (connection_of m)) clock (past_of m) e }
{
    let at = u64::from(e);
    (earliest_behind(m, 0) <= at) & (at <= last_tick(l, m, clock))
}

// Whether the row p keeps the pace of its connection; if so, it is remembered.
fn pass_row(h: Hub, table: &mut [u32], p: Packet) -> bool
    requires { (rows_formed table.old ≡ true) × (p.connection < max_connections) × Within h.link (connections_in table.old) }
    ensures value { result ≡ in_pace (nth (connections_in table.old) p.connection) (ahead h.link (nth (connections_in table.old) p.connection)) h.clock (past_in table.old p.connection) p.eligibility }
    ensures table_after { result ≡ true → table.new ≡ with_past table.old p.connection (remember (past_in table.old p.connection) p.eligibility) }
{
    let c = p.connection as usize;
    let m = connections::member_at(table, c);
    if !in_pace(h.link, m, h.clock, p.eligibility) {
        return false;
    }
    connections::put_past(table, c, p.eligibility);
    true
}

// Whether each row keeps its pace; if so, all rows are remembered.
fn scan(h: Hub, table: &mut [u32], places: Rows) -> bool
    requires { (rows_formed table.old ≡ true) × Names table.old places.table.now × Within h.link (connections_in table.old) }
    ensures value { result ≡ paced h.link (connections_in table.old) h.clock (past_in table.old) [] (rows places.entry.table.now) }
    ensures remembers { result ≡ true → Remembers table.old table.new (past_with table.old (rows places.entry.table.now)) }
{
    for i in 0..places.len() {
        if !pass_row(h, table, places.at(i)) {
            return false;
        }
    }
    true
}

// Whether what has left of each connection and its rows keep their pace, none holds more than its reservation, and what is remembered are these.
fn queues_ok(h: Hub, members: &[u32], places: Rows, seen: &[u32]) -> bool
    requires seen_value { Counts length seen.now (rows places.table.now) }
    requires members_value { (rows_formed members.now ≡ true) × Names members.now places.table.now × Within h.link (connections_in members.now) }
    ensures { (q : List ℕ) → result ≡ queues_sound (view h (tables members.now places.entry.table.now q)) }
{
    let mut table = [0u32; MEMBERS];
    table.copy_from_slice(members);
    forget_rows(&mut table, seen);
    if !each_left_ok(h, &table, seen) {
        return false;
    }
    if !scan(h, &mut table, places) {
        return false;
    }
    tables::same(members, &table)
}

// ---- those that are closed

// Number c, of which n packets are held: it is not closed, or it holds nothing and its charge is not over.
fn closed_ok(h: Hub, members: &[u32], c: usize, n: u32) -> bool
    requires { (rows_formed members.now ≡ true) × (c < max_connections) × (charge_time h.link < beyond_32_bits) }
    ensures { result ≡ closed_with h members.now n c }
{
    if connections::number(members, c, connections::MARK) == 0 {
        return true;
    }
    if n != 0 {
        return false;
    }
    let time = charge_time(h.link);
    !charge_over(connections::member_at(members, c), time, h.clock)
}

// All numbers, with the rows that were counted.
fn each_closed_ok(h: Hub, members: &[u32], seen: &[u32]) -> bool
    requires { (rows_formed members.now ≡ true) × (length seen.now ≡ max_connections) × (charge_time h.link < beyond_32_bits) }
    ensures { result ≡ every max_connections (λ c. closed_with h members.now (get_or seen.now c 0) c) }
{
    (0..MAX_CONNECTIONS).all(|c| closed_ok(h, members, c, seen[c]))
}

// ---- the whole

// Whether rows and memory of each connection keep the rules, and those of each that is closed.
pub(crate) fn paced_ok(h: Hub, members: &[u32], places: Rows) -> bool
    requires held_value { length (rows places.table.now) ≤ max_reserved }
    requires members_value { (rows_formed members.now ≡ true) × Names members.now places.table.now × Within h.link (connections_in members.now) }
    ensures { (q : List ℕ) → result ≡ (queues_sound (view h (tables members.now places.entry.table.now q)) && every max_connections (closed_sound (view h (tables members.now places.entry.table.now q)))) }
{
    let mut seen = [0u32; MAX_CONNECTIONS];
    line_tests::count_rows(places, &mut seen);
    queues_ok(h, members, places, &seen) && each_closed_ok(h, members, &seen)
}
