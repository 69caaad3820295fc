// The verdict of each call on a sound state: the tests of the table of verdicts in its order, the longer ones each by a function of its own; the first that holds refuses the call.
// Document 01, "Verdict numbers"; document 02, R-1, R-8, R-9 and R-11.
ghost use Rattle.std.specs.Prelude.{◌≡◌, true, ℕ, ◌+◌, ◌<◌, ◌≤◌, leb, eqb, length, get_or};
ghost use Rattle.rules.specs.Words.{first_number};
ghost use Rattle.rules.specs.Limits.{max_connections, beyond_32_bits};
ghost use Rattle.rules.specs.Model.{link, admit, offer, close, tick, nth, no_connection, no_past};
ghost use Rattle.rules.specs.Admission.{bound, reservation, distance, free_number};
ghost use Rattle.rules.specs.Service.{untimely_by, of};
ghost use Rattle.rules.specs.Calls.{verdict, refused_short};
ghost use Rattle.causes.specs.Refusals.{verdict_of, over_of};
ghost use Rattle.tables.specs.Places.{rows, written_places, places_length};
ghost use Rattle.connections.specs.Members.{connections_in, pasts_in, used_in, rows_formed};
ghost use Rattle.connections.specs.Rows.{connection_of};
ghost use Rattle.tables.specs.Options.{option_in};
ghost use Rattle.connections.specs.Within.{Within};
ghost use Rattle.state.specs.View.{tables, view, sound_hub};
ghost use Rattle.calls.specs.Rulings.{early_admit, too_far_in};

use causes::{Refusal, one_if_same};
use connections::Member;
use limits::{MAX_CONNECTIONS, MAX_RESERVED};
use rules::{Connection, Link};
use state::Hub;

// ---- the tests

// No link is set.
pub(crate) fn unset(h: Hub) -> bool
    ensures { result ≡ eqb h.link.levels 0 }
{
    h.link.levels == 0
}

// How many packets connection c holds.
fn held_by(places: &[u32], c: u32) -> u64
    requires { (places.now ≡ written_places (rows places.now)) × (length places.now ≡ places_length) }
    ensures { result ≡ length (of c (rows places.now)) }
{
    let mut n: u64 = 0;
    for i in 0..tables::count(places) {
        let p = tables::row(places, i);
        n += one_if_same(p.connection, c);
    }
    n
}

// Connection c, with figures x, holds as many packets as its reservation.
fn full(l: Link, x: Connection, places: &[u32], c: u32) -> bool
    requires { (1 ≤ x.level) × (1 ≤ x.gap) × (x.allowance + bound l x.level < beyond_32_bits) × (places.now ≡ written_places (rows places.now)) × (length places.now ≡ places_length) }
    ensures { result ≡ leb (reservation l x) (length (of c (rows places.now))) }
{
    connections::reserve(l, x) <= held_by(places, c)
}

// ---- the calls

pub(crate) fn link_verdict(
    h: Hub,
    members: &[u32],
    places: &[u32],
    notices: &[u32],
    l: Link,
) -> Result<(), Refusal>
    requires { sound_hub h (tables members.now places.now notices.now) ≡ true }
    ensures { verdict_of result ≡ verdict (link l) (view h (tables members.now places.now notices.now)) }
{
    // a link that is set already is not looked at further
    if !unset(h) {
        return Err(Refusal::LinkSet);
    }
    if !limits::link_ok(l) {
        return Err(Refusal::LinkLimit);
    }
    Ok(())
}

pub(crate) fn tick_verdict(
    h: Hub,
    members: &[u32],
    places: &[u32],
    notices: &[u32],
) -> Result<(), Refusal>
    requires { sound_hub h (tables members.now places.now notices.now) ≡ true }
    ensures { verdict_of result ≡ verdict tick (view h (tables members.now places.now notices.now)) }
{
    causes::of_tick(unset(h), h.clock)
}

// What speaks against an admission before a sum is made; c is the lowest free number.
fn admit_refusal(h: Hub, c: usize, x: Connection) -> Result<(), Refusal>
    ensures { verdict_of result ≡ first_number (early_admit h.link c x) }
{
    let l = h.link;
    if unset(h) {
        return Err(Refusal::NoLink);
    }
    if !limits::level_ok(l, x) {
        return Err(Refusal::Level);
    }
    if !limits::figures_ok(l, x) {
        return Err(Refusal::Figures);
    }
    if MAX_CONNECTIONS <= c {
        return Err(Refusal::NoNumber);
    }
    Ok(())
}

// The owners stand in the first n rows, and c is the lowest free number.
pub(crate) fn admit_verdict(
    h: Hub,
    members: &[u32],
    places: &[u32],
    notices: &[u32],
    n: usize,
    c: usize,
    x: Connection,
) -> Result<(), Refusal>
    requires { (sound_hub h (tables members.now places.now notices.now) ≡ true) × (n ≡ used_in members.now) × (c ≡ free_number (connections_in members.now)) }
    ensures number { verdict_of result ≡ verdict (admit x) (view h (tables members.now places.now notices.now)) }
    ensures over { over_of result ≡ refused_short (admit x) (view h (tables members.now places.now notices.now)) (verdict_of result) }
{
    let l = h.link;
    admit_refusal(h, c, x)?;
    let short = connections::newcomer_test(l, members, n, x);
    if short.level != 0 {
        return Err(Refusal::LevelTest(short));
    }
    let all = connections::reserved_by(l, members, n) + connections::reserve(l, x);
    if MAX_RESERVED < all {
        return Err(Refusal::Reservations);
    }
    Ok(())
}

// An offer, with a stamp or none, is out of time at number c.
fn untimely(members: &[u32], c: u32, clock: u32, stamp: Option<u32>) -> bool
    requires { (rows_formed members.now ≡ true) × (c < max_connections) }
    ensures { result ≡ untimely_by (nth (connections_in members.now) c) (get_or (pasts_in members.now) c no_past) clock (option_in stamp) }
{
    match stamp {
        Some(at) => {
            let m = connections::member_at(members, c as usize);
            connections::stamps::untimely(m, clock, at)
        }
        // without a stamp nothing is read
        None => false,
    }
}

// The farthest eligibility that a row may get while the stand-by queue is on: the distance past the clock.
fn farthest(l: Link, m: Member, clock: u32) -> u64
    requires { (m.figures.level ≡ 0 → connection_of m ≡ no_connection) × ((m.figures.level ≡ 0 → ⊥) → 1 ≤ m.figures.gap) × (m.figures.allowance + bound l m.figures.level < beyond_32_bits) × (clock + distance l (connection_of m) < beyond_32_bits) }
    ensures { result ≡ clock + distance l (connection_of m) }
{
    clock as u64 + connections::stand_by::distance(l, m.figures)
}

// The queue is on, and the eligibility that an offer, with a stamp or none, would get at number c lies farther.
fn too_far(l: Link, members: &[u32], c: u32, clock: u32, stamp: Option<u32>) -> bool
    requires { (rows_formed members.now ≡ true) × (c < max_connections) × (clock + distance l (nth (connections_in members.now) c) < beyond_32_bits) × Within l (connections_in members.now) }
    ensures { result ≡ too_far_in l members.now c clock (option_in stamp) }
{
    // with the queue off nothing is read
    if !connections::stand_by::is_on(l) {
        return false;
    }
    let m = connections::member_at(members, c as usize);
    let e = connections::stamps::eligibility_by(m, clock, stamp);
    farthest(l, m, clock) < e
}

pub(crate) fn offer_verdict(
    h: Hub,
    members: &[u32],
    places: &[u32],
    notices: &[u32],
    c: u32,
    len: u32,
    stamp: Option<u32>,
) -> Result<(), Refusal>
    requires { sound_hub h (tables members.now places.now notices.now) ≡ true }
    ensures { (tag : ℕ) → verdict_of result ≡ verdict (offer c len tag (option_in stamp)) (view h (tables members.now places.now notices.now)) }
{
    let l = h.link;
    let x = connections::figures_of(members, c);
    let suits = connections::stamps::suits(x, stamp);
    let heard = connections::stands(members, c) & suits;
    causes::early_offer(unset(h), heard, x.size, len)?;
    if full(l, x, places, c) {
        return Err(Refusal::Full);
    }
    if causes::ended(h.clock) {
        return Err(Refusal::ClockEnded);
    }
    if untimely(members, c, h.clock, stamp) {
        return Err(Refusal::OutOfTime);
    }
    if too_far(l, members, c, h.clock, stamp) {
        return Err(Refusal::TooFar);
    }
    Ok(())
}

pub(crate) fn close_verdict(
    h: Hub,
    members: &[u32],
    places: &[u32],
    notices: &[u32],
    c: u32,
) -> Result<(), Refusal>
    requires { sound_hub h (tables members.now places.now notices.now) ≡ true }
    ensures { verdict_of result ≡ verdict (close c) (view h (tables members.now places.now notices.now)) }
{
    if unset(h) {
        return Err(Refusal::NoLink);
    }
    if !connections::stands(members, c) {
        return Err(Refusal::NoConnection);
    }
    if 1 <= held_by(places, c) {
        return Err(Refusal::HoldsPackets);
    }
    Ok(())
}
