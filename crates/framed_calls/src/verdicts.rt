// The verdict of each call on a sound state: the tests of the table of verdicts in its order, the longer ones each by a function of its own; the first that holds refuses the call.
// Document 02, R-13, with the numbers of document 01, "Verdict numbers".
ghost use Rattle.std.specs.Prelude.{◌≡◌, true, cond, [], ◌∷◌, ◌++◌, ℕ, ◌+◌, ◌≤◌, ◌<◌, eqb, length};
ghost use Rattle.rules.specs.Words.{first_number};
ghost use Rattle.rules.specs.Limits.{beyond_32_bits};
ghost use Rattle.frames.specs.Model.{link, admit, offer, tick};
ghost use Rattle.frames.specs.Admission.{frame_sum};
ghost use Rattle.frames.specs.Service.{newly};
ghost use Rattle.frames.specs.Calls.{verdict, refused_short};
ghost use Rattle.causes.specs.Refusals.{verdict_of, over_of};
ghost use Rattle.tables.specs.Places.{rows, written_places, places_length};
ghost use Rattle.shares.specs.Shares.{shares_in, shares_formed};
ghost use Rattle.framed_state.specs.View.{tables, view, sound_frames};
ghost use Rattle.framed_sound.specs.Parts.{Measured};
ghost use Rattle.framed_calls.specs.Rulings.{early_admit, taken_of};

use causes::Refusal;
use framed_sound::tally;
use framed_state::Frames;
use frames::{Framing, Share};
use limits::{MAX_CONNECTIONS, MAX_RESERVED};
use rules::{Packet, Short};

// What a connection has taken: the packets that it holds, and the units that it has used in this frame.
#[derive(Clone, Copy)]
pub struct Taken {
    pub held: u64,
    pub units: u64,
}

// ---- the tests

// No link is set.
pub(crate) fn unset(h: Frames) -> bool
    ensures { result ≡ eqb h.link.frame 0 }
{
    h.link.frame == 0
}

// What packet p counts against the units of connection c in this frame.
fn counted(l: Framing, clock: u32, p: Packet, c: u32) -> u64
    requires { p.len + l.silence < beyond_32_bits }
    ensures { result ≡ cond (eqb p.connection c) (newly l clock p) 0 }
{
    if p.connection == c {
        return tally::newly(l, clock, p) as u64;
    }
    0
}

// What connection c has taken, in one pass over the rows.
fn taken_by(l: Framing, clock: u32, places: &[u32], c: u32) -> Taken
    requires { (places.now ≡ written_places (rows places.now)) × (length places.now ≡ places_length) × Measured l places.now }
    ensures { result ≡ taken_of l clock c (rows places.now) }
{
    let mut held: u64 = 0;
    let mut units: u64 = 0;
    for i in 0..tables::count(places) {
        let p = tables::row(places, i);
        held += causes::one_if_same(p.connection, c);
        units += counted(l, clock, p, c);
    }
    Taken { held, units }
}

// The sum of all r with that of x, plus S and its silence, where the sum of those who stand is within the frame.
fn sum_with(l: Framing, shares: &[u32], standing: usize, x: Share) -> u64
    requires { (shares_formed shares.now ≡ true) × (standing ≡ length (shares_in shares.now)) × (frame_sum l (shares_in shares.now) ≤ l.frame) }
    ensures { result ≡ frame_sum l (shares_in shares.now ++ x ∷ []) }
{
    let cost = l.largest as u64 + l.silence as u64;
    shares::units_of_all(shares, standing) + x.units as u64 + cost
}

// ---- the calls

pub(crate) fn link_verdict(
    h: Frames,
    shares: &[u32],
    places: &[u32],
    notices: &[u32],
    l: Framing,
) -> Result<(), Refusal>
    requires { sound_frames h (tables shares.now places.now notices.now) ≡ true }
    ensures { verdict_of result ≡ verdict (link l) (view h (tables shares.now places.now notices.now)) }
{
    // a link that is set already is not looked at further
    if !unset(h) {
        return Err(Refusal::LinkSet);
    }
    if !limits::framing_ok(l) {
        return Err(Refusal::LinkLimit);
    }
    Ok(())
}

pub(crate) fn tick_verdict(
    h: Frames,
    shares: &[u32],
    places: &[u32],
    notices: &[u32],
) -> Result<(), Refusal>
    requires { sound_frames h (tables shares.now places.now notices.now) ≡ true }
    ensures { verdict_of result ≡ verdict tick (view h (tables shares.now places.now notices.now)) }
{
    causes::of_tick(unset(h), h.clock)
}

// What speaks against an admission before a sum is made.
fn admit_refusal(h: Frames, standing: usize, x: Share) -> Result<(), Refusal>
    ensures { verdict_of result ≡ first_number (early_admit h.link standing x) }
{
    if unset(h) {
        return Err(Refusal::NoLink);
    }
    if !limits::share_ok(x) {
        return Err(Refusal::Figures);
    }
    if MAX_CONNECTIONS <= standing {
        return Err(Refusal::NoNumber);
    }
    Ok(())
}

pub(crate) fn admit_verdict(
    h: Frames,
    shares: &[u32],
    places: &[u32],
    notices: &[u32],
    standing: usize,
    x: Share,
) -> Result<(), Refusal>
    requires { (sound_frames h (tables shares.now places.now notices.now) ≡ true) × (standing ≡ length (shares_in shares.now)) }
    ensures number { verdict_of result ≡ verdict (admit x) (view h (tables shares.now places.now notices.now)) }
    ensures over { over_of result ≡ refused_short (admit x) (view h (tables shares.now places.now notices.now)) (verdict_of result) }
{
    admit_refusal(h, standing, x)?;
    let frame = h.link.frame as u64;
    let sum = sum_with(h.link, shares, standing, x);
    if frame < sum {
        return Err(Refusal::LevelTest(Short {
            level: 0,
            units: sum - frame,
        }));
    }
    let places_asked = shares::places_of_all(shares, standing) + x.places as u64;
    if MAX_RESERVED < places_asked {
        return Err(Refusal::Reservations);
    }
    Ok(())
}

pub(crate) fn offer_verdict(
    h: Frames,
    shares: &[u32],
    places: &[u32],
    notices: &[u32],
    c: u32,
    len: u32,
) -> Result<(), Refusal>
    requires { sound_frames h (tables shares.now places.now notices.now) ≡ true }
    ensures { (tag : ℕ) → verdict_of result ≡ verdict (offer c len tag) (view h (tables shares.now places.now notices.now)) }
{
    let l = h.link;
    let stands = shares::stands(shares, c);
    causes::early_offer(unset(h), stands, l.largest, len)?;
    let x = shares::figures_of(shares, c);
    let taken = taken_by(l, h.clock, places, c);
    if x.places as u64 <= taken.held {
        return Err(Refusal::Full);
    }
    if causes::ended(h.clock) {
        return Err(Refusal::ClockEnded);
    }
    let asked = taken.units + (len as u64 + l.silence as u64);
    if (x.units as u64) < asked {
        return Err(Refusal::PastUnits);
    }
    Ok(())
}
