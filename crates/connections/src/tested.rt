// What a level test is made on, and the level test itself; that of a link with windows goes on in windows.rt. Document 01, "Admission".
ghost use Rattle.std.specs.Prelude.{◌≡◌, true, false, ℕ, ◌+◌, ◌*◌, ◌-◌, ◌<◌, ◌≤◌, length, get_or};
ghost use Rattle.rules.specs.Limits.{max_levels, max_largest, max_connections};
ghost use Rattle.rules.specs.Model.{nth};
ghost use Rattle.rules.specs.Admission.{windowed, bound, cost, short_from};
ghost use Rattle.connections.specs.Members.{members_length, connections_in, used_by};
ghost use Rattle.connections.specs.Within.{Within, Whichever, Added, Loads, most_share, share_of};

use super::{bound_of, connection_at, cost_of, count_in, no_short, share};
use limits::MAX_LEVELS;
use rules::{Connection, Link, Short};

// A table of connections within their limits, which has owners up to row n at most, and a newcomer.
#[derive(Clone, Copy)]
pub(crate) struct Tested<'a> {
    pub(crate) link: Link,
    pub(crate) members: &'a [u32],
    pub(crate) n: usize,
    pub(crate) newcomer: Connection,
    ghost whole: { length members.now ≡ members_length },
    ghost owners: { used_by (connections_in members.now) ≤ n },
    ghost few: { n ≤ max_connections },
    ghost level_in: { 1 ≤ newcomer.level },
    ghost gap_in: { 1 ≤ newcomer.gap },
    ghost size_in: { newcomer.size ≤ max_largest },
    ghost within: { Within link (connections_in members.now) },
}

impl Tested<'_> {
    // To the sum of each level from place `low` and from its own level on the share of number c; a free number, which has no gap, adds nothing.
    fn add_shares(&self, c: usize, low: usize, sums: &mut [u64])
        requires sums_len { (length sums.old ≡ max_levels) × ((k : ℕ) → low ≤ k → k < self.now.link.levels → get_or sums.old k 0 ≤ max_connections * most_share) }
        requires c_value { c < max_connections }
        ensures { Added self.now.link low (nth (connections_in self.now.members.now) c) sums.old sums.new }
    {
        let x = connection_at(self.members, c);
        if x.gap == 0 {
            return;
        }
        let cost = cost_of(x.size, self.link.silence);
        for k in low.max((x.level - 1) as usize)..self.link.levels as usize {
            sums[k] += count_in(x, self.link.bounds[k]) * cost;
        }
    }

    // The sums of all levels from place `low` on, level 1 at place 0, without the newcomer.
    fn loads(&self, low: usize) -> [u64; MAX_LEVELS as usize]
        ensures { Loads self.now.link low (connections_in self.now.members.now) result }
    {
        let mut sums = [0u64; MAX_LEVELS as usize];
        for c in 0..self.n {
            self.add_shares(c, low, &mut sums);
        }
        sums
    }

    // The sum of level m with the newcomer counted, from the sums without it.
    fn sum_at(&self, sums: &[u64], m: u32) -> u64
        requires { (length sums.now ≡ max_levels) × (get_or sums.now (m - 1) 0 ≤ max_connections * most_share) × (1 ≤ m) × (m ≤ self.now.link.levels) }
        ensures { result ≡ get_or sums.now (m - 1) 0 + share_of self.now.link m (bound self.now.link m) self.now.newcomer + cost self.now.link self.now.link.largest }
    {
        let d = bound_of(self.link, m);
        sums[(m - 1) as usize]
            + share(self.link, self.newcomer, m, d)
            + cost_of(self.link.largest, self.link.silence)
    }

    // The level test from level `low` on, on a link without windows.
    fn bounds_from(&self, low: u32) -> Short
        requires { (windowed self.now.link ≡ false) × (1 ≤ low) }
        ensures { let l = self.now.link in Whichever l (connections_in self.now.members.now) self.now.newcomer (λ js. result ≡ short_from l js low (l.levels + 1 - low)) }
    {
        let sums = self.loads((low - 1) as usize);
        for m in low..self.link.levels + 1 {
            let d = bound_of(self.link, m);
            let units = self.sum_at(&sums, m).saturating_sub(u64::from(d));
            if units != 0 {
                return Short { level: m, units };
            }
        }
        no_short()
    }

    // The level test from level `low` on, with windows or without.
    pub(crate) fn test_from(&self, low: u32) -> Short
        requires { 1 ≤ low }
        ensures { let l = self.now.link in Whichever l (connections_in self.now.members.now) self.now.newcomer (λ js. result ≡ short_from l js low (l.levels + 1 - low)) }
    {
        if super::windows::has_windows(self.link) {
            return self.finer_from(low);
        }
        self.bounds_from(low)
    }
}
