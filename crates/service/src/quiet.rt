// Quiet ticks, in which no charge ends either: how many of those asked for can be passed over at once, and the hub after them.
ghost use Rattle.std.specs.Prelude.{◌≡◌, true, ◌+◌, ◌*◌, ◌-◌, ◌≤◌, ◌<◌, min, length};
ghost use Rattle.rules.specs.Limits.{clock_end, beyond_32_bits};
ghost use Rattle.rules.specs.Admission.{charge_time};
ghost use Rattle.rules.specs.Service.{first_early};
ghost use Rattle.rules.specs.SoundTest.{sound};
ghost use Rattle.tables.specs.Places.{rows, written_places, places_length};
ghost use Rattle.tables.specs.Notices.{notices_in};
ghost use Rattle.connections.specs.Members.{members_length, first_in, members_formed};
ghost use Rattle.state.specs.View.{Tables, tables, view, hub_of};
ghost use Rattle.service.specs.Candidates.{early_in};
ghost use Rattle.line.specs.Quiet.{eligible_from, quiet_for};
ghost use Rattle.service.specs.Quiet.{passed, least_of_four, Waits, first_starts, charged_for, quiet_ticks};

use super::stand_by;
use limits::{CLOCK_END, PACKET_WIDTH};
use state::Hub;

// The least eligibility of four rows from row i on.
fn least_of_four(places: &[u32], i: usize) -> u32
    requires { 5 * i + 20 ≤ length places.now }
    ensures { result ≡ least_of_four places.now i }
{
    let at = PACKET_WIDTH * i;
    let a = places[at + 4].min(places[at + 9]);
    let b = places[at + 14].min(places[at + 19]);
    a.min(b)
}

// The least eligibility of the first 4 * q rows, or the clock's end where that is less; one that is not later than the clock where a row is eligible.
fn first_of_fours(places: &[u32], q: usize, clock: u32) -> u32
    requires { 4 * q ≤ length (rows places.now) }
    ensures { (result ≤ clock_end) × Waits places.now clock result (4 * q) }
{
    let mut first = CLOCK_END;
    for j in 0..q {
        first = first.min(least_of_four(places, 4 * j));
        // it starts at once: no look at the rows behind it
        if first <= clock {
            return first;
        }
    }
    first
}

// How long no packet becomes eligible: up to the clock's end, and not at all where one is. Four rows a turn, then the last three at most one by one.
fn wait(places: &[u32], clock: u32) -> u32
    requires { (places.now ≡ written_places (rows places.now)) × (length places.now ≡ places_length) }
    ensures { result ≡ eligible_from (rows places.now) - clock }
{
    let n = tables::count(places);
    let q = n / 4;
    let mut first = first_of_fours(places, q, clock);
    for i in 4 * q..n {
        first = first.min(places[PACKET_WIDTH * i + 4]);
    }
    first.saturating_sub(clock)
}

// Whether the first packet is eligible. No row is counted for it.
fn first_starts(places: &[u32], clock: u32) -> bool
    requires { length places.now ≡ places_length }
    ensures { result ≡ first_starts (rows places.now) clock }
{
    if places[1] == 0 {
        return false;
    }
    places[4] <= clock
}

// The ticks in which nothing starts and nothing departs, by the line, the places, the notices and who may send early.
fn quiet_for(h: Hub, members: &[u32], places: &[u32], notices: &[u32]) -> u32
    requires { (places.now ≡ written_places (rows places.now)) × (length places.now ≡ places_length) × (length members.now ≡ members_length) }
    ensures { result ≡ quiet_for h.wire.to_go h.wire.silent (rows places.now) (notices_in notices.now) (first_early (early_in h.link members.now) (rows places.now)) h.clock }
{
    if !line::quiet::awaits(h.wire, notices) {
        return line::quiet::taken_for(h.wire);
    }
    // the first packet starts at once, where it is eligible
    if first_starts(places, h.clock) {
        return 0;
    }
    // and so does one that stands by
    if stand_by(h.link, members, places).is_some() {
        return 0;
    }
    wait(places, h.clock)
}

// The ticks in which no charge ends: up to the one before the earliest end.
fn charged_for(h: Hub, members: &[u32]) -> u64
    requires { (length members.now ≡ members_length) × (charge_time h.link < beyond_32_bits) }
    ensures { result ≡ charged_for (first_in members.now) (charge_time h.link) h.clock }
{
    let first = connections::closing::first_charge(members);
    if first == 0 {
        return CLOCK_END as u64;
    }
    let time = connections::closing::charge_time(h.link);
    let end = first as u64 + time as u64;
    end.saturating_sub(h.clock as u64 + 2)
}

// Of `left` ticks those that can be passed over at once.
pub fn quiet_ticks(h: Hub, members: &[u32], places: &[u32], notices: &[u32], left: u16) -> u16
    requires { (sound (view h (tables members.now places.now notices.now)) ≡ true) × (places.now ≡ written_places (rows places.now)) × (length places.now ≡ places_length) × (members_formed members.now ≡ true) }
    ensures { result ≡ quiet_ticks left (view h (tables members.now places.now notices.now)) }
{
    if h.link.levels == 0 {
        return 0;
    }
    let still = quiet_for(h, members, places, notices).min(CLOCK_END - h.clock);
    let rest = charged_for(h, members).min(still as u64);
    rest.min(left as u64) as u16
}

// The hub k ticks on, where nothing starts and nothing departs in them.
pub fn pass_over(h: Hub, k: u16) -> Hub
    requires { h.clock + k ≤ clock_end }
    ensures { (t : Tables) → result ≡ hub_of (passed (view h t) k) }
{
    line::quiet::pass_over(h, k)
}
