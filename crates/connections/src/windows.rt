// The level test of a link with windows: level by level the sum within the window, then the conditions from the last that decides down, in leaps; at the level that fails
// the first of them that does, by halving. Document 02, R-12.
ghost use Rattle.std.specs.Prelude.{◌≡◌, true, false, List, ◌+◌, ◌*◌, ◌-◌, ◌<◌, ◌≤◌, max, length};
ghost use Rattle.rules.specs.declared.Connection.{Connection as Figures};
ghost use Rattle.rules.specs.Limits.{max_largest, max_silence, max_bound, max_connections, beyond_32_bits};
ghost use Rattle.rules.specs.Model.{no_connection};
ghost use Rattle.rules.specs.Admission.{windowed, own_window, largest_of, window, load_by, level_sum, excess, short_from};
ghost use Rattle.rules.specs.QuickTest.{descend};
ghost use Rattle.connections.specs.Members.{members_length, connections_in, used_by};
ghost use Rattle.connections.specs.Within.{Whichever, most_share, share_of, own_span, before_span, seen};

use super::tested::Tested;
use super::{bound_in, bound_of, connection_at, cost_of, no_short, share};
use rules::{Connection, Link, Short};

// The link has windows.
pub(crate) fn has_windows(l: Link) -> bool
    ensures { result ≡ windowed l }
{
    0 < l.windows[0]
}

// The largest of some numbers; 0 where there are none.
pub(crate) fn largest_of(t: &[u32]) -> u32
    ensures { result ≡ largest_of t.now }
{
    t.iter().fold(0, |largest, w| largest.max(*w))
}

// The window of a level; 0 where there is none.
fn window_of(l: Link, m: u32) -> u32
    ensures { result ≡ own_window l m }
{
    bound_in(&l.windows, m)
}

// ---- the windows of a condition

// The window in which condition i counts the connections of its own level.
fn own_span(w: u32, i: u32) -> u32
    ensures { result ≡ own_span w i }
{
    if i == 0 {
        return w;
    }
    i
}

// The window in which it counts those of the levels before it.
fn urgent_span(d: u32, w: u32, i: u32) -> u32
    requires { d + i < beyond_32_bits }
    ensures { result ≡ before_span d w i }
{
    if i == 0 {
        return w;
    }
    w.min(d + (i - 1))
}

// What a connection adds to a sum of level m that counts those of level m within `own`, and those of the levels before it within `urgent`.
fn share_seen(l: Link, x: Connection, m: u32, own: u32, urgent: u32) -> u64
    requires { (x.level ≡ 0 → x ≡ no_connection) × ((x.level ≡ 0 → ⊥) → 1 ≤ x.gap) × (own ≤ max_bound) × (urgent ≤ max_bound) × (x.size ≤ max_largest) × (l.silence ≤ max_silence) }
    ensures { (result ≡ share_of l m (seen m own urgent x.level) x) × (result ≤ most_share) }
{
    if x.level == m {
        return share(l, x, m, own);
    }
    share(l, x, m, urgent)
}

// ---- the test of a link with windows

impl Tested<'_> {
    // The sum of level m over the connections that counts those of level m within `own`, and those of the levels before it within `urgent`.
    fn load_seen(&self, m: u32, own: u32, urgent: u32) -> u64
        requires { (own ≤ max_bound) × (urgent ≤ max_bound) }
        ensures { (result ≡ load_by self.now.link (connections_in self.now.members.now) m (seen m own urgent)) × (result ≤ max_connections * most_share) }
    {
        let mut sum: u64 = 0;
        for i in 0..self.n {
            let x = connection_at(self.members, i);
            sum += share_seen(self.link, x, m, own, urgent);
        }
        sum
    }

    // The sum of condition i of level m over the connections, with the newcomer and the largest packet counted: that of any connections whose sums are these.
    fn sum_of(&self, m: u32, i: u32) -> u64
        requires { (windowed self.now.link ≡ true) × (1 ≤ m) × (m ≤ self.now.link.levels) × (i ≤ window self.now.link m) }
        ensures { Whichever self.now.link (connections_in self.now.members.now) self.now.newcomer (λ js. result ≡ level_sum self.now.link js m i) }
    {
        let d = bound_of(self.link, m);
        let w = window_of(self.link, m);
        let own = own_span(w, i);
        let urgent = urgent_span(d, w, i);
        self.load_seen(m, own, urgent)
            + share_seen(self.link, self.newcomer, m, own, urgent)
            + cost_of(self.link.largest, self.link.silence)
    }

    // Conditions 1 to k of level m hold: from the last of them down, in leaps.
    fn descends(&self, m: u32, k: u32) -> bool
        requires { (windowed self.now.link ≡ true) × (1 ≤ m) × (m ≤ self.now.link.levels) × (k ≤ window self.now.link m) }
        ensures { Whichever self.now.link (connections_in self.now.members.now) self.now.newcomer (λ js. result ≡ descend self.now.link js m k k) }
    {
        let d = bound_of(self.link, m);
        let mut i = k;
        while 0 < i {
            let sum = self.sum_of(m, i);
            if u64::from(d + (i - 1)) < sum {
                return false;
            }
            i = sum.saturating_sub(u64::from(d)) as u32;
        }
        true
    }

    // The first of the conditions 1 to k of level m that fails, where one does: by halving, as those up to any number before it hold, and those up to any from it on do not.
    fn first_failing(&self, m: u32, k: u32) -> u32
        requires { (windowed self.now.link ≡ true) × (1 ≤ m) × (m ≤ self.now.link.levels) × (k ≤ window self.now.link m) × Whichever self.now.link (connections_in self.now.members.now) self.now.newcomer (λ js. descend self.now.link js m k k ≡ false) }
        ensures { (result ≤ k) × Whichever self.now.link (connections_in self.now.members.now) self.now.newcomer (λ js. (1 ≤ result) × (descend self.now.link js m (result - 1) (result - 1) ≡ true) × (descend self.now.link js m result result ≡ false)) }
    {
        let mut hold: u32 = 0;
        let mut fail = k;
        while 1 < fail - hold {
            let i = hold + (fail - hold) / 2;
            if self.descends(m, i) {
                hold = i;
            } else {
                fail = i;
            }
        }
        fail
    }

    // The first excess of level m; 0 where no condition fails.
    fn excess_of(&self, m: u32) -> u64
        requires { (windowed self.now.link ≡ true) × (1 ≤ m) × (m ≤ self.now.link.levels) }
        ensures { Whichever self.now.link (connections_in self.now.members.now) self.now.newcomer (λ js. result ≡ excess self.now.link js m) }
    {
        let w = window_of(self.link, m);
        let sum = self.sum_of(m, 0);
        if u64::from(w) < sum {
            return sum - u64::from(w);
        }
        let d = bound_of(self.link, m);
        let last = w - d;
        if self.descends(m, last) {
            return 0;
        }
        let i = self.first_failing(m, last);
        self.sum_of(m, i).saturating_sub(u64::from(d + i - 1))
    }

    // The level test from level `low` on.
    pub(crate) fn finer_from(&self, low: u32) -> Short
        requires { (windowed self.now.link ≡ true) × (1 ≤ low) }
        ensures { let l = self.now.link in Whichever l (connections_in self.now.members.now) self.now.newcomer (λ js. result ≡ short_from l js low (l.levels + 1 - low)) }
    {
        for m in low..self.link.levels + 1 {
            let units = self.excess_of(m);
            if units != 0 {
                return Short { level: m, units };
            }
        }
        no_short()
    }
}
