// The line of either discipline: what a caller keeps of it, and its eight requests on a line that has been tested. Each is answered by the discipline that is set; a
// request that only the other one knows is refused. Document 02, R-13.
#![tactic(auto)]

mod parts; // parts.rt: the parts of the soundness test, and answers of the two disciplines as replies
pub mod quiet; // quiet.rt: ticks in which nothing starts and nothing departs

ghost use Rattle.std.specs.Prelude.{◌≡◌, true};
ghost use Rattle.either_line.specs.Line.{fresh_line, link_levels, link_frames, admit_level, admit_share, offer, notice, close, tick};
ghost use Rattle.tables.specs.Options.{option_in};
ghost use Rattle.tables.specs.Lent.{tables};
ghost use Rattle.both.specs.View.{kept_of, kept_clock, has_link, sound_kept};
ghost use Rattle.both.specs.Does.{Does};

use framed_state::Frames;
use frames::{Framing, Share};
use limits::{NO_CONNECTION, SHARES};
use line::Told;
use line::answers::say;
use rules::{Connection, Link};
use state::Hub;

// What a caller keeps beside the tables: the hub of levels and the frames. The one that is not set is fresh; the tables are those of the other. A line with frames has
// its table of shares in the first numbers of the table of connections.
#[derive(Clone, Copy)]
pub struct Kept {
    pub hub: Hub,
    pub frames: Frames,
}

// The reply to a request, and what is kept after it. `short` is what an admission refused with 8 was told, else zeros.
pub type Replied = Told<Kept>;

// The fresh line, of either discipline; its three tables start as zeros.
pub fn fresh_line() -> Kept
    ensures { result ≡ kept_of fresh_line }
{
    Kept {
        hub: hub::fresh_hub(),
        frames: framed_hub::fresh_frames(),
    }
}

// A link is set, of either discipline.
pub fn is_set(h: Kept) -> bool
    ensures { result ≡ has_link h }
{
    (h.hub.link.levels != 0) | (h.frames.link.frame != 0)
}

// The clock of the discipline that is set.
pub fn clock_of(h: Kept) -> u32
    ensures { result ≡ kept_clock h }
{
    if h.frames.link.frame != 0 {
        return h.frames.clock;
    }
    h.hub.clock
}

// Whether a line is sound: exactly, for any numbers and tables of any length.
pub fn is_sound(h: Kept, members: &[u32], places: &[u32], notices: &[u32]) -> bool
    ensures { result ≡ sound_kept h (tables members.now places.now notices.now) }
{
    if h.frames.link.frame != 0 {
        if !parts::unused_hub(h.hub) {
            return false;
        }
        if !parts::members_framed(members) {
            return false;
        }
        return framed_sound::is_sound(h.frames, &members[..SHARES], places, notices);
    }
    if !parts::unused_frames(h.frames) {
        return false;
    }
    sound::is_sound(h.hub, members, places, notices)
}

// kept: what may not change: that a request leaves a table is said by its `&`, and `Does` names the same slice before and after, so the tables are three parameters

// A link of levels.
pub fn link_levels(h: Kept, members: &[u32], places: &[u32], notices: &[u32], l: Link) -> Replied
    requires { sound_kept h (tables members.now places.now notices.now) ≡ true }
    ensures { Does (link_levels l) h (tables members.now places.now notices.now) result (tables members.now places.now notices.now) }
{
    if h.frames.link.frame == 0 {
        let told = calls::link_tested(h.hub, members, places, notices, l);
        return parts::by_levels(h, told);
    }
    say(h, 3, 0)
}

// A link of frames.
pub fn link_frames(h: Kept, members: &[u32], places: &[u32], notices: &[u32], l: Framing) -> Replied
    requires { sound_kept h (tables members.now places.now notices.now) ≡ true }
    ensures { Does (link_frames l) h (tables members.now places.now notices.now) result (tables members.now places.now notices.now) }
{
    if h.hub.link.levels != 0 {
        return say(h, 3, 0);
    }
    let said = framed_calls::link_tested(h.frames, &members[..SHARES], places, notices, l);
    parts::by_frames(h, said)
}

// A connection with a level asks to be admitted.
pub fn admit_level(
    h: Kept,
    members: &mut [u32],
    places: &[u32],
    notices: &[u32],
    x: Connection,
) -> Replied
    requires { sound_kept h (tables members.old places.now notices.now) ≡ true }
    ensures { Does (admit_level x) h (tables members.old places.now notices.now) result (tables members.new places.now notices.now) }
{
    if h.frames.link.frame == 0 {
        let told = calls::admit_tested(h.hub, members, places, notices, x);
        return parts::by_levels(h, told);
    }
    say(h, 2, NO_CONNECTION)
}

// A connection with a share asks to be admitted.
pub fn admit_share(
    h: Kept,
    members: &mut [u32],
    places: &[u32],
    notices: &[u32],
    x: Share,
) -> Replied
    requires { sound_kept h (tables members.old places.now notices.now) ≡ true }
    ensures { Does (admit_share x) h (tables members.old places.now notices.now) result (tables members.new places.now notices.now) }
{
    if h.frames.link.frame == 0 {
        return say(h, 2, NO_CONNECTION);
    }
    let said = framed_calls::admit_tested(h.frames, &mut members[..SHARES], places, notices, x);
    parts::by_frames(h, said)
}

// A packet is offered: with a stamp, where it brings one.
pub fn offer(
    h: Kept,
    members: &mut [u32],
    places: &mut [u32],
    notices: &[u32],
    c: u32,
    len: u32,
    tag: u32,
    stamp: Option<u32>,
) -> Replied
    requires { sound_kept h (tables members.old places.old notices.now) ≡ true }
    ensures { Does (offer c len tag (option_in stamp)) h (tables members.old places.old notices.now) result (tables members.new places.new notices.now) }
{
    if h.frames.link.frame == 0 {
        let told = calls::offer_tested(h.hub, members, places, notices, c, len, tag, stamp);
        return parts::by_levels(h, told);
    }
    if stamp.is_some() {
        return say(h, 2, 0);
    }
    let said = framed_calls::offer_tested(
        h.frames,
        &members[..SHARES],
        places,
        notices,
        c,
        len,
        tag,
    );
    parts::by_frames(h, said)
}

// A notice is offered.
pub fn notice(
    h: Kept,
    members: &[u32],
    places: &[u32],
    notices: &mut [u32],
    len: u32,
    tag: u32,
) -> Replied
    requires { sound_kept h (tables members.now places.now notices.old) ≡ true }
    ensures { Does (notice len tag) h (tables members.now places.now notices.old) result (tables members.now places.now notices.new) }
{
    if h.frames.link.frame == 0 {
        let told = calls::notice_tested(h.hub, members, places, notices, len, tag);
        return parts::by_levels(h, told);
    }
    let said = framed_calls::notice_tested(h.frames, &members[..SHARES], places, notices, len, tag);
    parts::by_frames(h, said)
}

// A connection is closed.
pub fn close(h: Kept, members: &mut [u32], places: &[u32], notices: &[u32], c: u32) -> Replied
    requires { sound_kept h (tables members.old places.now notices.now) ≡ true }
    ensures { Does (close c) h (tables members.old places.now notices.now) result (tables members.new places.now notices.now) }
{
    if h.frames.link.frame == 0 {
        let told = calls::close_tested(h.hub, members, places, notices, c);
        return parts::by_levels(h, told);
    }
    say(h, 2, 0)
}

// One tick.
pub fn tick(h: Kept, members: &mut [u32], places: &mut [u32], notices: &mut [u32]) -> Replied
    requires { sound_kept h (tables members.old places.old notices.old) ≡ true }
    ensures { Does tick h (tables members.old places.old notices.old) result (tables members.new places.new notices.new) }
{
    if h.frames.link.frame == 0 {
        let told = calls::tick_tested(h.hub, members, places, notices);
        return parts::by_levels(h, told);
    }
    let said = framed_calls::tick_tested(h.frames, &members[..SHARES], places, notices);
    parts::by_frames(h, said)
}
