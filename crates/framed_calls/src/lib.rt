// The five calls of a line of the second discipline on a state that has been tested: same rules, no second test. A run that has tested once uses these.
// Document 02, R-13.
#![tactic(auto)]

mod verdicts; // verdicts.rt: the verdict of each call

ghost use Rattle.std.specs.Prelude.{◌≡◌, true};
ghost use Rattle.frames.specs.Model.{link, admit, offer, notice, tick};
ghost use Rattle.frames.specs.Calls.{verdict};
ghost use Rattle.framed_state.specs.View.{tables, view, sound_frames};
ghost use Rattle.framed_state.specs.Does.{Does};

use framed_state::{Frames, Said, say};
use frames::{Framing, Share};
use limits::NO_CONNECTION;
use rules::Packet;

// A link is set, once.
pub fn link_tested(h: Frames, shares: &[u32], places: &[u32], notices: &[u32], l: Framing) -> Said
    requires { sound_frames h (tables shares.now places.now notices.now) ≡ true }
    ensures { Does (link l) h (tables shares.now places.now notices.now) result (tables shares.now places.now notices.now) }
{
    if let Err(why) = verdicts::link_verdict(h, shares, places, notices, l) {
        return say(h, why.number(), 0);
    }
    say(Frames { link: l, ..h }, 0, 0)
}

// A connection asks to be admitted.
pub fn admit_tested(
    h: Frames,
    shares: &mut [u32],
    places: &[u32],
    notices: &[u32],
    x: Share,
) -> Said
    requires { sound_frames h (tables shares.old places.now notices.now) ≡ true }
    ensures { Does (admit x) h (tables shares.old places.now notices.now) result (tables shares.new places.now notices.now) }
{
    let standing = shares::standing(shares);
    if let Err(why) = verdicts::admit_verdict(h, shares, places, notices, standing, x) {
        return Said {
            short: why.short(),
            ..say(h, why.number(), NO_CONNECTION)
        };
    }
    shares::join(shares, standing, x);
    say(h, 0, standing as u32)
}

// An offer that is accepted: behind the others, eligible at the start of the next frame.
fn accept(
    h: Frames,
    shares: &[u32],
    places: &mut [u32],
    notices: &[u32],
    c: u32,
    len: u32,
    tag: u32,
) -> Said
    requires { (sound_frames h (tables shares.now places.old notices.now) ≡ true) × (verdict (offer c len tag) (view h (tables shares.now places.old notices.now)) ≡ 0) }
    ensures { Does (offer c len tag) h (tables shares.now places.old notices.now) result (tables shares.now places.new notices.now) }
{
    let e = framed_sound::next_start(h.link.frame, h.clock) as u32;
    let held = tables::count(places);
    tables::append(
        places,
        held,
        Packet {
            connection: c,
            len,
            tag,
            arrival: h.clock,
            eligibility: e,
        },
    );
    say(h, 0, e)
}

// A packet is offered.
pub fn offer_tested(
    h: Frames,
    shares: &[u32],
    places: &mut [u32],
    notices: &[u32],
    c: u32,
    len: u32,
    tag: u32,
) -> Said
    requires { sound_frames h (tables shares.now places.old notices.now) ≡ true }
    ensures { Does (offer c len tag) h (tables shares.now places.old notices.now) result (tables shares.now places.new notices.now) }
{
    if let Err(why) = verdicts::offer_verdict(h, shares, places, notices, c, len) {
        return say(h, why.number(), 0);
    }
    accept(h, shares, places, notices, c, len, tag)
}

// A notice is offered.
pub fn notice_tested(
    h: Frames,
    shares: &[u32],
    places: &[u32],
    notices: &mut [u32],
    len: u32,
    tag: u32,
) -> Said
    requires { sound_frames h (tables shares.now places.now notices.old) ≡ true }
    ensures { Does (notice len tag) h (tables shares.now places.now notices.old) result (tables shares.now places.now notices.new) }
{
    let unset = verdicts::unset(h);
    match causes::take_notice(unset, h.link.largest, h.clock, notices, len, tag) {
        Ok(eligibility) => say(h, 0, eligibility),
        Err(why) => say(h, why.number(), 0),
    }
}

// One tick.
pub fn tick_tested(h: Frames, shares: &[u32], places: &mut [u32], notices: &mut [u32]) -> Said
    requires { sound_frames h (tables shares.now places.old notices.old) ≡ true }
    ensures { Does tick h (tables shares.now places.old notices.old) result (tables shares.now places.new notices.new) }
{
    if let Err(why) = verdicts::tick_verdict(h, shares, places, notices) {
        return say(h, why.number(), 0);
    }
    framed_service::run_on(h, shares, places, notices)
}
