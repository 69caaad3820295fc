// One tick of the line: the choice of the next packet in one pass over the rows, the packet that stands by, and the three steps. Document 01, "One tick";
// document 02, R-1, R-4 and R-11.
#![tactic(auto)]

pub mod quiet; // quiet.rt: ticks in which nothing starts, nothing departs and no charge ends

ghost use Rattle.std.specs.Prelude.{◌≡◌, true, ℕ, ◌+◌, ◌*◌, ◌<◌, ◌≤◌, length};
ghost use Rattle.rules.specs.Service.{choice, first_early, ticked};
ghost use Rattle.tables.specs.Places.{rows, written_places, places_length};
ghost use Rattle.connections.specs.Members.{members_length};
ghost use Rattle.service.specs.Candidates.{level_in, early_in, StandsIn, Leads, LeadsWith, NotEligible};
ghost use Rattle.state.specs.View.{tables, view};
ghost use Rattle.service.specs.Gives.{begun_wire, Gives};
ghost use Rattle.tables.specs.Options.{option_of};
ghost use Rattle.service.specs.Ready.{Ready};
ghost use Rattle.tables.specs.Notices.{notices_formed};

use limits::PACKET_WIDTH;
use line::Wire;
use rules::{Link, Packet};
use state::{Hub, Told};

// The best row of those walked so far: its place, its connection's level and its eligibility, so that no row is read twice.
#[derive(Clone, Copy)]
pub struct Lead {
    pub place: usize,
    pub level: u32,
    pub eligibility: u32,
}

// The best so far, or row i, which was offered later: row i only if it is eligible and goes strictly before the best.
fn lead_with(
    members: &[u32],
    places: &[u32],
    lead: Option<Lead>,
    i: usize,
    clock: u32,
) -> Option<Lead>
    requires { (5 * i + 5 ≤ length places.now) × Leads members.now places.now lead × (length members.now ≡ members_length) }
    ensures { LeadsWith members.now places.now clock lead i result }
{
    let eligibility = places[PACKET_WIDTH * i + 4];
    if clock < eligibility {
        return lead;
    }
    let level = connections::level_of(members, places[PACKET_WIDTH * i]);
    let next = Lead {
        place: i,
        level,
        eligibility,
    };
    let Some(best) = lead else {
        return Some(next);
    };
    if best.level < level {
        return lead;
    }
    if level < best.level {
        return Some(next);
    }
    if best.eligibility <= eligibility {
        return lead;
    }
    Some(next)
}

// The next of n rows, from row i on, that is to be looked at: those from i to there are not eligible. Four rows a turn; the last three at most are left.
fn passed_over(places: &[u32], n: usize, i: usize, clock: u32) -> usize
    requires { (i ≤ n) × (5 * n ≤ length places.now) }
    ensures { (i ≤ result) × (result ≤ n) × NotEligible places.now clock i result }
{
    let mut j = i;
    // kept: one row a turn misses the bar of speed: with 2,048 rows held that walk took 43 in a hundred of a run (docs/BENCHMARKS.md)
    while j + 4 <= n {
        let at = PACKET_WIDTH * j;
        if places[at + 4] <= clock {
            return j;
        }
        if places[at + 9] <= clock {
            return j + 1;
        }
        if places[at + 14] <= clock {
            return j + 2;
        }
        if places[at + 19] <= clock {
            return j + 3;
        }
        j += 4;
    }
    j
}

// The packet that the line takes next, if one is eligible. One pass upward over the held rows.
pub fn choose(members: &[u32], places: &[u32], clock: u32) -> Option<Packet>
    requires { (places.now ≡ written_places (rows places.now)) × (length places.now ≡ places_length) × (length members.now ≡ members_length) }
    ensures { result ≡ option_of (choice (level_in members.now) clock (rows places.now)) }
{
    let n = tables::count(places);
    let mut lead: Option<Lead> = None;
    let mut i = passed_over(places, n, 0, clock);
    // kept: the new form is no plainer: the next row is not the one behind, but the one that `passed_over` answers
    while i < n {
        lead = lead_with(members, places, lead, i, clock);
        i = passed_over(places, n, i + 1, clock);
    }
    match lead {
        Some(best) => Some(tables::row(places, best.place)),
        None => None,
    }
}

// The packet that stands by: the first row, in the order offered, whose connection may send early. Where the queue is off no row is looked at.
fn stand_by(l: Link, members: &[u32], places: &[u32]) -> Option<Packet>
    requires { (places.now ≡ written_places (rows places.now)) × (length places.now ≡ places_length) × (length members.now ≡ members_length) }
    ensures { result ≡ option_of (first_early (early_in l members.now) (rows places.now)) }
{
    if !connections::stand_by::is_on(l) {
        return None;
    }
    for i in 0..tables::count(places) {
        let x = connections::figures_of(members, places[PACKET_WIDTH * i]);
        if connections::stand_by::goes_early(l, x) {
            return Some(tables::row(places, i));
        }
    }
    None
}

// The packet that stands by, looked for only where the line would take it: no packet is chosen and no notice waits.
fn early_next(
    chosen: Option<Packet>,
    l: Link,
    members: &[u32],
    places: &[u32],
    notices: &[u32],
) -> Option<Packet>
    requires { (places.now ≡ written_places (rows places.now)) × (length places.now ≡ places_length) × (length members.now ≡ members_length) }
    ensures { StandsIn chosen notices.now (first_early (early_in l members.now) (rows places.now)) result }
{
    if let Some(_) = chosen {
        return None;
    }
    if !tables::none(notices) {
        return None;
    }
    stand_by(l, members, places)
}

// Step 1: an idle line takes the chosen packet, else the first notice, else the packet that stands by. While something is in service or the silence runs no
// row is looked at.
fn start(h: Hub, members: &[u32], places: &[u32], notices: &[u32]) -> Wire
    requires { (places.now ≡ written_places (rows places.now)) × (length places.now ≡ places_length) × (notices_formed notices.now ≡ true) × (length members.now ≡ members_length) }
    ensures { result ≡ begun_wire (view h (tables members.now places.now notices.now)) }
{
    if !line::is_idle(h.wire) {
        return h.wire;
    }
    let chosen = choose(members, places, h.clock);
    let early = early_next(chosen, h.link, members, places, notices);
    line::begin(h.wire, chosen, early, notices)
}

// The three steps of a tick, on a hub that is ready for them.
pub fn run_tick(h: Hub, members: &[u32], places: &mut [u32], notices: &mut [u32]) -> Told
    requires { Ready h places.old notices.old × (length members.now ≡ members_length) }
    ensures { Gives (ticked (view h (tables members.now places.old notices.old))) result places.new notices.new }
{
    let w = start(h, members, places, notices);
    let x = line::send(w, h.link.silence, places, notices);
    line::answers::pass(h, x)
}
