// The table of connections, and what is asked of its figures: reservations and the level test.
#![tactic(auto)]

pub mod closing; // closing.rt: connections that are closed, and numbers that are freed
pub mod regulator; // regulator.rt: the next eligibility of a connection, and what it remembers
pub mod stand_by; // stand_by.rt: packets that may go before they are eligible, and how far past the clock that may lie
pub mod stamps; // stamps.rt: offers that bring a stamp, and connections that want one
mod tested; // tested.rt: what a level test is made on, and the level test
mod windows; // windows.rt: the level test of a link with windows

ghost use Rattle.std.specs.Prelude.{◌≡◌, true, false, not, ◌&&◌, List, ℕ, ◌+◌, ◌*◌, ◌-◌, ◌/◌, ◌<◌, ◌≤◌, min, max, length, get_or, set, drop, replicate};
ghost use Rattle.std.proofs.lemmas.List.Edits.{sets};
ghost use Rattle.rules.specs.declared.Connection.{Connection as Figures};
ghost use Rattle.rules.specs.Limits.{max_levels, max_largest, max_silence, max_bound, max_connections, beyond_32_bits};
ghost use Rattle.rules.specs.Model.{no_short, nth, no_past, no_connection};
ghost use Rattle.rules.specs.Admission.{link_within, windowed, bound, burst, rounded_up, average_count, count, reservation, reserved, cost, short_from, level_test, passes, owned, free_number, joining};
ghost use Rattle.rules.specs.Service.{remember};
ghost use Rattle.limits.specs.Zeros.{zeros};
ghost use Rattle.tables.specs.Table.{row_in};
ghost use Rattle.connections.specs.Members.{member_width, members_length, member_in, figures_row, put_member, connections_in, pasts_in, closed_in, used_by, used_in, first_in, written_members, rows_formed, members_formed};
ghost use Rattle.connections.specs.Rows.{rows_end, connection_of, written_table};
ghost use Rattle.connections.specs.Within.{Within, SumsWith, Added, Loads, bound_in, most_share, share_of};

use limits::{MAX_CONNECTIONS, MAX_LEVELS, MAX_REMEMBERED, MEMBER_HEAD, MEMBER_ROWS, MEMBER_WIDTH};
use rules::{Connection, Link, Short};
use tested::Tested;

// A row of the table: a connection's figures, a mark where it is closed, how many eligibilities of its accepted packets are remembered, and these, newest first.
#[derive(Clone, Copy, Default)]
pub struct Member {
    pub figures: Connection,
    pub mark: u32,
    pub known: u32,
    pub ticks: [u32; MAX_REMEMBERED],
}

// Where the mark and the count of the remembered eligibilities stand in a row: behind the figures.
pub const MARK: usize = 7;

pub(crate) const KNOWN: usize = 8;

// Number k of row i.
// kept: the slice and the clause on its length of number, member_at, is_free, used, free_number, figures_of, stands, level_of and connection_at, which other crates call, ask what they asked.
pub fn number(members: &[u32], i: usize, k: usize) -> u32
    requires { (member_width * i + member_width ≤ length members.now) × (k < member_width) }
    ensures { result ≡ get_or (row_in member_width members.now i) k 0 }
{
    members[MEMBER_WIDTH * i + k]
}

// The eligibilities in row i, remembered or not.
fn ticks_at(members: &[u32], i: usize) -> [u32; MAX_REMEMBERED]
    requires { member_width * i + member_width ≤ length members.now }
    ensures { result ≡ (member_in members.now i).ticks }
{
    let end = MEMBER_WIDTH * i + MEMBER_WIDTH;
    let at = MEMBER_WIDTH * i + MEMBER_HEAD;
    let mut ticks = [0u32; MAX_REMEMBERED];
    ticks.copy_from_slice(&members[at..end]);
    ticks
}

// The figures in row i.
fn figures_at(members: &[u32], i: usize) -> Connection
    requires { member_width * i + member_width ≤ length members.now }
    ensures { result ≡ connection_of (member_in members.now i) }
{
    Connection {
        level: number(members, i, 0),
        gap: number(members, i, 2),
        size: number(members, i, 1),
        window: number(members, i, 3),
        average: number(members, i, 4),
        kind: number(members, i, 5),
        allowance: number(members, i, 6),
    }
}

// Row i of the table.
pub fn member_at(members: &[u32], i: usize) -> Member
    requires { member_width * i + member_width ≤ length members.now }
    ensures { result ≡ member_in members.now i }
{
    Member {
        figures: figures_at(members, i),
        mark: number(members, i, MARK),
        known: number(members, i, KNOWN),
        ticks: ticks_at(members, i),
    }
}

// Row i gets these figures; the numbers behind them stay.
fn put_figures(members: &mut [u32], i: usize, x: Connection)
    requires { member_width * i + member_width ≤ length members.old }
    ensures { members.new ≡ sets members.old (member_width * i) (figures_row x) }
{
    let at = MEMBER_WIDTH * i;
    let row = [
        x.level,
        x.size,
        x.gap,
        x.window,
        x.average,
        x.kind,
        x.allowance,
    ];
    members[at..at + MARK].copy_from_slice(&row);
}

// Row i becomes m.
fn put_member(members: &mut [u32], i: usize, m: Member)
    requires { member_width * i + member_width ≤ length members.old }
    ensures { members.new ≡ put_member members.old i m }
{
    let at = MEMBER_WIDTH * i;
    put_figures(members, i, m.figures);
    members[at + MARK] = m.mark;
    members[at + KNOWN] = m.known;
    members[at + MEMBER_HEAD..at + MEMBER_WIDTH].copy_from_slice(&m.ticks);
}

// Row i is free: all its numbers are 0.
pub fn is_free(members: &[u32], i: usize) -> bool
    requires { member_width * i + member_width ≤ length members.now }
    ensures { result ≡ zeros (row_in member_width members.now i) }
{
    let at = MEMBER_WIDTH * i;
    let end = at + MEMBER_WIDTH;
    limits::zero_from(&members[at..end], 0)
}

// How many rows there are up to the last owner's: the first of the two numbers behind the rows.
pub fn used(members: &[u32]) -> usize
    requires { length members.now ≡ members_length }
    ensures { result ≡ used_in members.now }
{
    members[MEMBER_ROWS] as usize
}

// The lowest free number, of a table with owners up to row n.
pub fn free_number(members: &[u32], n: usize) -> usize
    requires { (length members.now ≡ members_length) × (n ≡ used_by (connections_in members.now)) }
    ensures { result ≡ free_number (connections_in members.now) }
{
    (0..n).find(|i| number(members, *i, 0) == 0).unwrap_or(n)
}

// Row c has an owner: the first of the two numbers behind the rows, raised where it is less.
fn use_up_to(members: &mut [u32], c: usize)
    requires { (length members.old ≡ members_length) × (c < max_connections) }
    ensures { members.new ≡ set members.old rows_end (max (used_in members.old) (c + 1)) }
{
    members[MEMBER_ROWS] = members[MEMBER_ROWS].max(c as u32 + 1);
}

// A connection that was just admitted, at the lowest free number c, of which nothing is left.
pub fn add_member(members: &mut [u32], c: usize, x: Connection)
    requires members_value { (members_formed members.old ≡ true) × (c ≡ free_number (connections_in members.old)) × (c < max_connections) × (1 ≤ x.level) }
    requires no_past_value { (get_or (pasts_in members.old) c no_past ≡ no_past) × (get_or (closed_in members.old) c false ≡ false) }
    ensures { members.new ≡ written_members (joining (connections_in members.old) x) (pasts_in members.old) (closed_in members.old) }
{
    put_member(
        members,
        c,
        Member {
            figures: x,
            ..Member::default()
        },
    );
    use_up_to(members, c);
}

// The figures of number c; zeros where it has no owner.
pub fn figures_of(members: &[u32], c: u32) -> Connection
    requires { length members.now ≡ members_length }
    ensures { result ≡ nth (connections_in members.now) c }
{
    let k = c as usize;
    if k < MAX_CONNECTIONS {
        return figures_at(members, k);
    }
    Connection::default()
}

// Number c stands: it has an owner that is not closed.
pub fn stands(members: &[u32], c: u32) -> bool
    requires { length members.now ≡ members_length }
    ensures { result ≡ (owned (connections_in members.now) c && not (get_or (closed_in members.now) c false)) }
{
    let k = c as usize;
    if MAX_CONNECTIONS <= k {
        return false;
    }
    (number(members, k, 0) != 0) & (number(members, k, MARK) == 0)
}

// The level of number c; 0 where it has no owner.
pub fn level_of(members: &[u32], c: u32) -> u32
    requires { length members.now ≡ members_length }
    ensures { result ≡ (nth (connections_in members.now) c).level }
{
    let k = c as usize;
    if k < MAX_CONNECTIONS {
        return number(members, k, 0);
    }
    0
}

// Connection c has had a packet accepted, with the eligibility e. The numbers behind the rows stay.
pub fn put_past(members: &mut [u32], c: usize, e: u32)
    requires { (rows_formed members.old ≡ true) × (c < max_connections) }
    ensures { members.new ≡ written_table (connections_in members.old) (set (pasts_in members.old) c (remember (get_or (pasts_in members.old) c no_past) e)) (closed_in members.old) (used_in members.old) (first_in members.old) }
{
    let m = member_at(members, c);
    put_member(members, c, regulator::remembering(m, e));
}

// Connection c forgets its newest n. The numbers behind the rows stay.
pub fn forget(members: &mut [u32], c: usize, n: u32)
    requires { (rows_formed members.old ≡ true) × (c < max_connections) }
    ensures { members.new ≡ written_table (connections_in members.old) (set (pasts_in members.old) c (drop n (get_or (pasts_in members.old) c no_past))) (closed_in members.old) (used_in members.old) (first_in members.old) }
{
    let m = member_at(members, c);
    put_member(members, c, regulator::forgetting(m, n));
}

pub(crate) fn wide(x: u32) -> u64
    ensures { (result ≡ x) × (result < beyond_32_bits) }
{
    u64::from(x)
}

// Of a link's bounds that of a level; 0 where there is none.
pub(crate) fn bound_in(bounds: &[u32], level: u32) -> u32
    requires { length bounds.now ≡ max_levels }
    ensures { result ≡ bound_in bounds.now level }
{
    if level < 1 {
        return 0;
    }
    if MAX_LEVELS < level {
        return 0;
    }
    let k = (level - 1) as usize;
    bounds[k]
}

// The delay bound of a level; 0 where there is none.
pub fn bound_of(l: Link, level: u32) -> u32
    ensures { result ≡ bound l level }
{
    bound_in(&l.bounds, level)
}

// w / x, rounded up.
fn quotient_up(w: u32, x: u32) -> u64
    requires { 1 ≤ x }
    ensures { (result ≡ rounded_up w x) × (result ≤ w) }
{
    u64::from(w.div_ceil(x))
}

// The packets that an averaging window may hold; 0 where there is no average.
pub fn packets_in(window: u32, average: u32) -> u32
    ensures { result ≡ window / average }
{
    window.checked_div(average).unwrap_or(0)
}

// What the average allows within w ticks: n for each whole window, and for the rest n at most.
fn average_in(x: Connection, n: u32, w: u32) -> u64
    requires { (1 ≤ x.gap) × (n ≡ burst x) × (1 ≤ n) }
    ensures { result ≡ average_count x w }
{
    let rest = u64::from(n).min(quotient_up(w % x.window, x.gap));
    u64::from(w / x.window) * u64::from(n) + rest
}

// How many packets may be eligible within w ticks: w / gap, rounded up, or what the average allows where that is less.
pub fn count_in(x: Connection, w: u32) -> u64
    requires { 1 ≤ x.gap }
    ensures { (result ≡ count x w) × (result ≤ w) }
{
    let most = quotient_up(w, x.gap);
    let n = packets_in(x.window, x.average);
    if n == 0 {
        return most;
    }
    most.min(average_in(x, n, w))
}

// The places reserved for a connection of a link with these bounds; none for a free number, which has no gap.
fn reserve_in(bounds: &[u32], x: Connection) -> u64
    requires { (x.level ≡ 0 → x ≡ no_connection) × ((x.level ≡ 0 → ⊥) → 1 ≤ x.gap) × (length bounds.now ≡ max_levels) × (x.allowance + bound_in bounds.now x.level < beyond_32_bits) }
    ensures { (result ≡ count x (x.allowance + bound_in bounds.now x.level)) × (result < beyond_32_bits) }
{
    if x.gap == 0 {
        return 0;
    }
    let d = bound_in(bounds, x.level);
    count_in(x, x.allowance + d)
}

// The places reserved for a connection; none for a free number.
pub fn reserve(l: Link, x: Connection) -> u64
    requires { (x.level ≡ 0 → x ≡ no_connection) × ((x.level ≡ 0 → ⊥) → 1 ≤ x.gap) × (x.allowance + bound l x.level < beyond_32_bits) }
    ensures { (result ≡ reservation l x) × (result < beyond_32_bits) }
{
    reserve_in(&l.bounds, x)
}

// What a packet costs the line, in ticks: a tick for each unit, and then the silence.
pub(crate) fn cost_of(len: u32, silence: u32) -> u64
    requires { (len ≤ max_largest) × (silence ≤ max_silence) }
    ensures { (result ≡ len + silence) × (result ≤ max_largest + max_silence) }
{
    u64::from(len) + u64::from(silence)
}

// What a connection adds to a sum of level m, counted within w; a free number nothing.
pub(crate) fn share(l: Link, x: Connection, m: u32, w: u32) -> u64
    requires { (x.level ≡ 0 → x ≡ no_connection) × ((x.level ≡ 0 → ⊥) → 1 ≤ x.gap) × (w ≤ max_bound) × (x.size ≤ max_largest) × (l.silence ≤ max_silence) }
    ensures { (result ≡ share_of l m w x) × (result ≤ most_share) }
{
    if x.level == 0 {
        return 0;
    }
    if m < x.level {
        return 0;
    }
    count_in(x, w) * cost_of(x.size, l.silence)
}

// The connection in row i.
pub fn connection_at(members: &[u32], i: usize) -> Connection
    requires { (length members.now ≡ members_length) × (i < max_connections) }
    ensures { result ≡ nth (connections_in members.now) i }
{
    figures_at(members, i)
}

// No level is short.
pub fn no_short() -> Short
    ensures { result ≡ no_short }
{
    Short::default()
}

// The level test over the connections, which have owners up to row n at most, and a newcomer: that of any connections whose sums are these.
// kept: the parameters and clauses of level_test, newcomer_test, standing_test and reserved_by, which other crates call, ask what they asked.
pub fn level_test(l: Link, members: &[u32], n: usize, x: Connection) -> Short
    requires { (length members.now ≡ members_length) × (used_by (connections_in members.now) ≤ n) × (n ≤ max_connections) × (1 ≤ x.level) × (1 ≤ x.gap) × (x.size ≤ max_largest) × Within l (connections_in members.now) }
    ensures { (js : List Figures) → SumsWith l (connections_in members.now) x js → result ≡ level_test l js }
{
    let tested = Tested {
        link: l,
        members,
        n,
        newcomer: x,
    };
    tested.test_from(1)
}

// The same, where the connections pass the test without the newcomer: it adds nothing to the sums of the levels below its own, so that these are not made.
pub fn newcomer_test(l: Link, members: &[u32], n: usize, x: Connection) -> Short
    requires { (length members.now ≡ members_length) × (used_by (connections_in members.now) ≤ n) × (n ≤ max_connections) × (1 ≤ x.level) × (1 ≤ x.gap) × (x.size ≤ max_largest) × Within l (connections_in members.now) × (passes l (connections_in members.now) ≡ true) }
    ensures { (js : List Figures) → SumsWith l (connections_in members.now) x js → result ≡ level_test l js }
{
    let tested = Tested {
        link: l,
        members,
        n,
        newcomer: x,
    };
    tested.test_from(x.level)
}

// The level test over the connections, which have owners up to row n at most. Nobody new is counted: a connection of a level above all others adds to no sum.
pub fn standing_test(l: Link, members: &[u32], n: usize) -> Short
    requires { (length members.now ≡ members_length) × (used_by (connections_in members.now) ≤ n) × (n ≤ max_connections) × Within l (connections_in members.now) }
    ensures { result ≡ level_test l (connections_in members.now) }
{
    let nobody = Connection {
        level: l.levels + 1,
        gap: 1,
        ..Connection::default()
    };
    level_test(l, members, n, nobody)
}

// All reservations together of the connections, which have owners up to row n at most.
pub fn reserved_by(l: Link, members: &[u32], n: usize) -> u64
    requires { (length members.now ≡ members_length) × (used_by (connections_in members.now) ≤ n) × (n ≤ max_connections) × Within l (connections_in members.now) }
    ensures { (result ≡ reserved l (connections_in members.now)) × (result ≤ max_connections * beyond_32_bits) }
{
    let mut sum: u64 = 0;
    for i in 0..n {
        sum += reserve_in(&l.bounds, connection_at(members, i));
    }
    sum
}
