// When a packet of a connection may go: the average-rate regulator, on a connection by value with its sixteen ticks. Document 01, "Eligibility"; document
// 02, R-6.
ghost use Rattle.std.specs.Prelude.{◌≡◌, true, ◌+◌, ◌<◌, ◌≤◌, min, max, get_or, drop};
ghost use Rattle.rules.specs.Limits.{max_remembered};
ghost use Rattle.rules.specs.Admission.{burst};
ghost use Rattle.rules.specs.Service.{nth_before, ticks_after, earliest, next_eligibility, remember};
ghost use Rattle.connections.specs.Members.{member_formed};
ghost use Rattle.connections.specs.Rows.{connection_of, past_of, closed_of, member};
ghost use Rattle.connections.specs.Within.{gap_only, last_only};

use super::{Member, packets_in};
use limits::MAX_REMEMBERED;

// The next eligibility by the gap alone: on arrival where no packet was accepted (flag 0), else the greater of now and the last one plus the gap.
// kept: the C interface: the flag and the number come as C hands them to mtredovim_next_eligibility.
pub fn gap_eligibility(flag: u32, last: u32, gap: u32, now: u32) -> u64
    ensures { result ≡ next_eligibility (gap_only gap) (last_only flag last) now }
{
    if flag == 0 {
        return u64::from(now);
    }
    u64::from(now).max(u64::from(last) + u64::from(gap))
}

// x ticks after the n-th eligibility before, n from 1, once the newest k are forgotten; 0 where there is none.
pub fn after_nth(m: Member, k: u32, n: u32, x: u32) -> u64
    requires { (m.known ≤ max_remembered) × (k ≤ max_remembered) × (n ≤ max_remembered) }
    ensures { result ≡ ticks_after x (nth_before n (drop k (past_of m))) }
{
    if n == 0 {
        return 0;
    }
    if m.known < k + n {
        return 0;
    }
    let i = (k + n - 1) as usize;
    u64::from(m.ticks[i]) + u64::from(x)
}

// The k-th newest of those remembered, k from 0.
pub fn tick_at(m: Member, k: u32) -> u32
    requires { (k < m.known) × (m.known ≤ max_remembered) }
    ensures { result ≡ get_or (past_of m) k 0 }
{
    let i = k as usize;
    m.ticks[i]
}

// The earliest tick that both rules allow once the newest k are forgotten: the gap after the packet before, the window after the n-th before.
pub fn earliest_behind(m: Member, k: u32) -> u64
    requires { (m.known ≤ max_remembered) × (k ≤ max_remembered) × (burst (connection_of m) ≤ max_remembered) }
    ensures { result ≡ earliest (connection_of m) (drop k (past_of m)) }
{
    let n = packets_in(m.figures.window, m.figures.average);
    after_nth(m, k, 1, m.figures.gap).max(after_nth(m, k, n, m.figures.window))
}

// The next eligibility of a connection.
pub fn next_eligibility(m: Member, now: u32) -> u64
    requires { (m.known ≤ max_remembered) × (burst (connection_of m) ≤ max_remembered) }
    ensures { result ≡ next_eligibility (connection_of m) (past_of m) now }
{
    u64::from(now).max(earliest_behind(m, 0))
}

// The same connection once a packet is accepted with the eligibility e: it comes first, and of the others the last is forgotten where there is no room.
pub(crate) fn remembering(m: Member, e: u32) -> Member
    requires { member_formed m ≡ true }
    ensures { result ≡ member (connection_of m) (remember (past_of m) e) (closed_of m) }
{
    let mut ticks = m.ticks;
    ticks.rotate_right(1);
    ticks[0] = e;
    Member {
        known: (m.known + 1).min(MAX_REMEMBERED as u32),
        ticks,
        ..m
    }
}

// The same connection once its newest n are forgotten.
pub(crate) fn forgetting(m: Member, n: u32) -> Member
    requires { member_formed m ≡ true }
    ensures { result ≡ member (connection_of m) (drop n (past_of m)) (closed_of m) }
{
    let mut ticks = [0u32; MAX_REMEMBERED];
    if m.known <= n {
        return Member {
            known: 0,
            ticks,
            ..m
        };
    }
    let from = n as usize;
    ticks[..MAX_REMEMBERED - from].copy_from_slice(&m.ticks[from..]);
    Member {
        known: m.known - n,
        ticks,
        ..m
    }
}
