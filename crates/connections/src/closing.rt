// Connections that are closed, and numbers that are freed. Document 02, R-8.
ghost use Rattle.std.specs.Prelude.{◌≡◌, true, false, map, ℕ, ◌+◌, ◌-◌, ◌<◌, ◌≤◌, length, get_or, set};
ghost use Rattle.rules.specs.Limits.{max_connections, beyond_32_bits};
ghost use Rattle.rules.specs.Model.{no_connection, no_past};
ghost use Rattle.rules.specs.Admission.{charge_time};
ghost use Rattle.rules.specs.Service.{charge_over};
ghost use Rattle.connections.specs.Members.{members_length, no_member, members_in, connections_in, pasts_in, closed_in, earlier, used_by, used_in, first_closed, first_in, written_rows, written_members, member_formed, rows_formed, members_formed};
ghost use Rattle.connections.specs.Rows.{past_of, last_of};
ghost use Rattle.connections.specs.Closing.{one_more, one_less, freed, ClosedInOrder, Swept};

use super::{MARK, Member, bound_of, member_at, number, put_member, used, windows};
use limits::{MAX_REMEMBERED, MEMBER_HEAD, MEMBER_ROWS, MEMBER_WIDTH};
use rules::Link;

// How long a closed connection is charged past its last eligibility: the largest bound, and on a link with windows the largest window besides.
pub fn charge_time(l: Link) -> u32
    requires { charge_time l < beyond_32_bits }
    ensures { result ≡ charge_time l }
{
    let d = bound_of(l, l.levels);
    if !windows::has_windows(l) {
        return d;
    }
    d + windows::largest_of(&l.windows)
}

// The charge of a connection is over: it never sent, or the clock has reached its last eligibility plus the time of a charge.
pub fn charge_over(m: Member, time: u32, clock: u32) -> bool
    requires { member_formed m ≡ true }
    ensures { result ≡ charge_over time clock (past_of m) }
{
    if m.known == 0 {
        return true;
    }
    u64::from(m.ticks[0]) + u64::from(time) <= u64::from(clock)
}

// ---- the numbers behind the rows

// One more than the earliest last eligibility of those that are closed, 0 where none is: the second of the two numbers behind the rows.
// kept: 0 for none is the layout of the table, and service, calls and sound rely on the contract of first_charge.
pub fn first_charge(members: &[u32]) -> u32
    requires { length members.now ≡ members_length }
    ensures { result ≡ first_in members.now }
{
    members[MEMBER_ROWS + 1]
}

// The same as an eligibility, where there is one.
fn first_charged(members: &[u32]) -> Option<u32>
    requires { length members.now ≡ members_length }
    ensures { result ≡ one_less (first_in members.now) }
{
    first_charge(members).checked_sub(1)
}

// The earlier of an eligibility and the first of others, where there are any.
fn earlier(last: u32, first: Option<u32>) -> u32
    ensures { result ≡ earlier (last + 1) (one_more first) - 1 }
{
    first.map_or(last, |e| e.min(last))
}

// The earliest last eligibility of those that are closed, where any is; all of them stand before row n.
pub fn earliest_closed(members: &[u32], n: usize) -> Option<u32>
    requires { (rows_formed members.now ≡ true) × ((c : ℕ) → n ≤ c → get_or (closed_in members.now) c false ≡ false) × (n ≤ max_connections) }
    ensures { result ≡ one_less (first_closed (pasts_in members.now) (closed_in members.now)) }
{
    let mut first = None;
    for k in (0..n).rev() {
        if number(members, k, MARK) != 0 {
            first = Some(earlier(number(members, k, MEMBER_HEAD), first));
        }
    }
    first
}

// The number behind the rows that stands for it.
fn number_for(first: Option<u32>) -> u32
    requires { one_more first < beyond_32_bits }
    ensures { result ≡ one_more first }
{
    match first {
        None => 0,
        Some(e) => e + 1,
    }
}

// How many rows there are up to the last owner's, n at most.
pub fn owners_up_to(members: &[u32], n: usize) -> usize
    requires { (length members.now ≡ members_length) × (used_by (connections_in members.now) ≤ n) × (n ≤ max_connections) }
    ensures { result ≡ used_by (connections_in members.now) }
{
    for k in (0..n).rev() {
        if number(members, k, 0) != 0 {
            return k + 1;
        }
    }
    0
}

// ---- a close

// Connection c, which has sent and is not closed, is closed and charged.
pub fn mark_closed(members: &mut [u32], c: usize)
    requires { (members_formed members.old ≡ true) × (c < max_connections) × (get_or (closed_in members.old) c false ≡ false) × (last_of (get_or (pasts_in members.old) c no_past) + 1 < beyond_32_bits) }
    ensures { members.new ≡ written_members (connections_in members.old) (pasts_in members.old) (set (closed_in members.old) c true) }
{
    let last = number(members, c, MEMBER_HEAD);
    let first = earlier(last, first_charged(members));
    members[MEMBER_WIDTH * c + MARK] = 1;
    members[MEMBER_ROWS + 1] = first + 1;
}

// Number c, whose owner is not closed, is freed.
pub fn free_member(members: &mut [u32], c: usize)
    requires { (members_formed members.old ≡ true) × (c < max_connections) × (get_or (closed_in members.old) c false ≡ false) }
    ensures { members.new ≡ written_members (set (connections_in members.old) c no_connection) (set (pasts_in members.old) c no_past) (closed_in members.old) }
{
    let n = used(members);
    put_member(members, c, Member::default());
    let left = owners_up_to(members, n);
    members[MEMBER_ROWS] = left as u32;
}

// ---- a tick

// Row i is freed where it is closed and its charge is over.
fn clear_ended(members: &mut [u32], i: usize, time: u32, clock: u32)
    requires { (rows_formed members.old ≡ true) × (i < max_connections) }
    ensures { members.new ≡ written_rows (set (members_in members.old) i (freed time clock (get_or (members_in members.old) i no_member))) (used_in members.old) (first_in members.old) }
{
    if number(members, i, MARK) == 0 {
        return;
    }
    if charge_over(member_at(members, i), time, clock) {
        put_member(members, i, Member::default());
    }
}

// Each of the first n rows; no row behind them is closed.
fn clear_each(members: &mut [u32], n: usize, time: u32, clock: u32)
    requires { (rows_formed members.old ≡ true) × ClosedInOrder members.old × (used_by (connections_in members.old) ≤ n) × (n ≤ max_connections) }
    ensures { members.new ≡ written_rows (map (freed time clock) (members_in members.old)) (used_in members.old) (first_in members.old) }
{
    for i in 0..n {
        clear_ended(members, i, time, clock);
    }
}

// The numbers behind the rows are made anew; all owners stand before row n.
fn sum_up(members: &mut [u32], n: usize)
    requires { (rows_formed members.old ≡ true) × ClosedInOrder members.old × (used_by (connections_in members.old) ≤ n) × (n ≤ max_connections) }
    ensures { members.new ≡ written_members (connections_in members.old) (pasts_in members.old) (closed_in members.old) }
{
    let owners = owners_up_to(members, n);
    let earliest = number_for(earliest_closed(members, owners));
    members[MEMBER_ROWS] = owners as u32;
    members[MEMBER_ROWS + 1] = earliest;
}

// Every number whose charge is over is freed.
fn free_ended(members: &mut [u32], time: u32, clock: u32)
    requires { (members_formed members.old ≡ true) × ClosedInOrder members.old }
    ensures { Swept members.old time clock members.new }
{
    let n = used(members);
    clear_each(members, n, time, clock);
    sum_up(members, n);
}

// The same; where nobody's charge is over no row is looked at.
pub fn sweep(members: &mut [u32], time: u32, clock: u32)
    requires { (members_formed members.old ≡ true) × ClosedInOrder members.old }
    ensures { Swept members.old time clock members.new }
{
    let Some(first) = first_charged(members) else {
        return;
    };
    if u64::from(clock) < u64::from(first) + u64::from(time) {
        return;
    }
    free_ended(members, time, clock);
}
