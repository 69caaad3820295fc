// A line of the second discipline, with frames: link, admit, offer, notice, tick. Any `Frames` value and any tables: an answer or a numbered refusal; a refused call changes
// nothing. The caller keeps a `Frames`, a table of connections of 400 numbers, a places table of 10,240 and a table of notices of 320, all zero at first, and hands them to
// every call. Document 02, R-13.
#![tactic(auto)]

ghost use Rattle.std.specs.Prelude.{◌≡◌};
ghost use Rattle.frames.specs.Model.{fresh, link, admit, offer, notice, tick};
ghost use Rattle.framed_state.specs.View.{tables, frames_of};
ghost use Rattle.framed_state.specs.Does.{Does};

use framed_state::{Frames, Said, say};
use frames::{Framing, Share};
use limits::NO_CONNECTION;
use line::Wire;

// How many numbers the caller lends: as the table of connections, as the places table, as the table of notices.
pub const CONNECTIONS: usize = limits::SHARES;

pub const PLACES: usize = limits::PLACES;

pub const NOTICES: usize = limits::NOTICES;

// The fresh line; its three tables start as zeros.
pub fn fresh_frames() -> Frames
    ensures { result ≡ frames_of fresh }
{
    Frames {
        link: Framing::default(),
        clock: 0,
        wire: Wire::default(),
    }
}

// Set the link: the frame's length T, the largest packet S, the silence after each packet. Verdicts 0, 1, 3, 4.
pub fn link(h: Frames, shares: &[u32], places: &[u32], notices: &[u32], l: Framing) -> Said
    ensures { Does (link l) h (tables shares.now places.now notices.now) result (tables shares.now places.now notices.now) }
{
    if !framed_sound::is_sound(h, shares, places, notices) {
        return say(h, 1, 0);
    }
    framed_calls::link_tested(h, shares, places, notices, l)
}

// Admit a connection with r units per frame and p places: its number, or 255. Verdicts 0, 1, 2, 6 to 9.
pub fn admit(h: Frames, shares: &mut [u32], places: &[u32], notices: &[u32], x: Share) -> Said
    ensures { Does (admit x) h (tables shares.old places.now notices.now) result (tables shares.new places.now notices.now) }
{
    if !framed_sound::is_sound(h, shares, places, notices) {
        return say(h, 1, NO_CONNECTION);
    }
    framed_calls::admit_tested(h, shares, places, notices, x)
}

// Offer a packet: its eligibility, which is the start of the next frame, or 0. Verdicts 0, 1, 2, 10 to 13, 19.
pub fn offer(
    h: Frames,
    shares: &[u32],
    places: &mut [u32],
    notices: &[u32],
    c: u32,
    len: u32,
    tag: u32,
) -> Said
    ensures { Does (offer c len tag) h (tables shares.now places.old notices.now) result (tables shares.now places.new notices.now) }
{
    if !framed_sound::is_sound(h, shares, places, notices) {
        return say(h, 1, 0);
    }
    framed_calls::offer_tested(h, shares, places, notices, c, len, tag)
}

// Offer a notice: its eligibility, which is its arrival, or 0. Verdicts 0, 1, 2, 11, 13, 15.
pub fn notice(
    h: Frames,
    shares: &[u32],
    places: &[u32],
    notices: &mut [u32],
    len: u32,
    tag: u32,
) -> Said
    ensures { Does (notice len tag) h (tables shares.now places.now notices.old) result (tables shares.now places.now notices.new) }
{
    if !framed_sound::is_sound(h, shares, places, notices) {
        return say(h, 1, 0);
    }
    framed_calls::notice_tested(h, shares, places, notices, len, tag)
}

// One tick: the packet that departed, with finish at the clock then, or none. Verdicts 0, 1, 2, 13.
pub fn tick(h: Frames, shares: &[u32], places: &mut [u32], notices: &mut [u32]) -> Said
    ensures { Does tick h (tables shares.now places.old notices.old) result (tables shares.now places.new notices.new) }
{
    if !framed_sound::is_sound(h, shares, places, notices) {
        return say(h, 1, 0);
    }
    framed_calls::tick_tested(h, shares, places, notices)
}
