// The hub from C: link, admit, offer, notice, close, tick, many ticks, of either discipline, for any tables: an answer or a numbered refusal; a refused call changes
// nothing. The caller lends the line's table, of 31 numbers, and the tables of connections, places and notices, all zero at first. For C: include/mtredovim.h.
#![tactic(auto)]

mod kept; // kept.rt: the line's table, and the numbers of an answer
pub mod tested; // tested.rt: the same calls on tables that have been tested
mod ticking; // ticking.rt: many ticks

ghost use Rattle.std.specs.Prelude.{◌≡◌, cond, [], ◌∷◌, ◌++◌};
ghost use Rattle.std.proofs.Common.{inl, inr};
ghost use Rattle.std.proofs.Math.Option.{none, some};
ghost use Rattle.either_line.specs.Line.{link_levels, link_frames, admit_level, admit_share, offer, notice, close, tick};
ghost use Rattle.tables.specs.Lent.{tables};
ghost use Rattle.named.specs.Named.{eight_from, link_named, framing_named, connection_named, stamped_named, share_named};
ghost use Rattle.board.specs.Numbers.{sound_lent};
ghost use Rattle.board.specs.Calls.{spoken};
ghost use Rattle.board.specs.Does.{Does};

use kept::{ADMISSION, DEPARTURE, is_sound};
use limits::{MAX_LEVELS, NO_CONNECTION};

// A link of levels: n levels, the largest packet S, the silence, the setting of the stand-by queue; eight bounds and eight windows.
#[unsafe(no_mangle)]
pub extern "C" fn mtredovim_link(
    line: &mut [u32],
    members: &[u32],
    places: &[u32],
    notices: &[u32],
    levels: u32,
    largest: u32,
    silence: u32,
    early: u32,
    bounds: &[u32; MAX_LEVELS as usize],
    windows: &[u32; MAX_LEVELS as usize],
) -> u32
    ensures { Does (inl (link_levels (link_named (levels ∷ largest ∷ silence ∷ early ∷ (eight_from 0 bounds.now ++ eight_from 0 windows.now))))) line.old (tables members.now places.now notices.now) (spoken result [] [] line.new) (tables members.now places.now notices.now) }
{
    if !is_sound(line, members, places, notices) {
        return 1;
    }
    tested::mtredovim_link_tested(
        line, members, places, notices, levels, largest, silence, early, bounds, windows,
    )
}

// A link of frames: T, S and the silence.
#[unsafe(no_mangle)]
pub extern "C" fn mtredovim_link_frames(
    line: &mut [u32],
    members: &[u32],
    places: &[u32],
    notices: &[u32],
    frame: u32,
    largest: u32,
    silence: u32,
) -> u32
    ensures { Does (inl (link_frames (framing_named (frame ∷ largest ∷ silence ∷ [])))) line.old (tables members.now places.now notices.now) (spoken result [] [] line.new) (tables members.now places.now notices.now) }
{
    if !is_sound(line, members, places, notices) {
        return 1;
    }
    tested::mtredovim_link_frames_tested(line, members, places, notices, frame, largest, silence)
}

// A connection regulated by its gap: level, gap, size, averaging window and average gap.
#[unsafe(no_mangle)]
pub extern "C" fn mtredovim_admit(
    line: &mut [u32],
    members: &mut [u32],
    places: &[u32],
    notices: &[u32],
    level: u32,
    gap: u32,
    size: u32,
    window: u32,
    average: u32,
    admission: &mut [u32; ADMISSION],
) -> u32
    ensures { Does (inl (admit_level (connection_named (level ∷ gap ∷ size ∷ window ∷ average ∷ [])))) line.old (tables members.old places.now notices.now) (spoken result admission.new [] line.new) (tables members.new places.now notices.now) }
{
    if !is_sound(line, members, places, notices) {
        *admission = [NO_CONNECTION, 0, 0];
        return 1;
    }
    tested::mtredovim_admit_tested(
        line, members, places, notices, level, gap, size, window, average, admission,
    )
}

// A connection regulated by stamps: level, gap, size, allowance.
#[unsafe(no_mangle)]
pub extern "C" fn mtredovim_admit_stamped(
    line: &mut [u32],
    members: &mut [u32],
    places: &[u32],
    notices: &[u32],
    level: u32,
    gap: u32,
    size: u32,
    allowance: u32,
    admission: &mut [u32; ADMISSION],
) -> u32
    ensures { Does (inl (admit_level (stamped_named (level ∷ gap ∷ size ∷ allowance ∷ [])))) line.old (tables members.old places.now notices.now) (spoken result admission.new [] line.new) (tables members.new places.now notices.now) }
{
    if !is_sound(line, members, places, notices) {
        *admission = [NO_CONNECTION, 0, 0];
        return 1;
    }
    tested::mtredovim_admit_stamped_tested(
        line, members, places, notices, level, gap, size, allowance, admission,
    )
}

// A connection of a line with frames: r units a frame, p places.
#[unsafe(no_mangle)]
pub extern "C" fn mtredovim_admit_share(
    line: &mut [u32],
    members: &mut [u32],
    places: &[u32],
    notices: &[u32],
    units: u32,
    room: u32,
    admission: &mut [u32; ADMISSION],
) -> u32
    ensures { Does (inl (admit_share (share_named (units ∷ room ∷ [])))) line.old (tables members.old places.now notices.now) (spoken result admission.new [] line.new) (tables members.new places.now notices.now) }
{
    if !is_sound(line, members, places, notices) {
        *admission = [NO_CONNECTION, 0, 0];
        return 1;
    }
    tested::mtredovim_admit_share_tested(line, members, places, notices, units, room, admission)
}

// A packet of a connection.
#[unsafe(no_mangle)]
pub extern "C" fn mtredovim_offer(
    line: &mut [u32],
    members: &mut [u32],
    places: &mut [u32],
    notices: &[u32],
    c: u32,
    len: u32,
    tag: u32,
    eligibility: &mut u32,
) -> u32
    ensures { Does (inl (offer c len tag none)) line.old (tables members.old places.old notices.now) (spoken result (eligibility.new ∷ []) [] line.new) (tables members.new places.new notices.now) }
{
    if !is_sound(line, members, places, notices) {
        *eligibility = 0;
        return 1;
    }
    tested::mtredovim_offer_tested(line, members, places, notices, c, len, tag, eligibility)
}

// A packet that brings a stamp.
#[unsafe(no_mangle)]
pub extern "C" fn mtredovim_offer_stamped(
    line: &mut [u32],
    members: &mut [u32],
    places: &mut [u32],
    notices: &[u32],
    c: u32,
    len: u32,
    tag: u32,
    stamp: u32,
    eligibility: &mut u32,
) -> u32
    ensures { Does (inl (offer c len tag (some stamp))) line.old (tables members.old places.old notices.now) (spoken result (eligibility.new ∷ []) [] line.new) (tables members.new places.new notices.now) }
{
    if !is_sound(line, members, places, notices) {
        *eligibility = 0;
        return 1;
    }
    tested::mtredovim_offer_stamped_tested(
        line,
        members,
        places,
        notices,
        c,
        len,
        tag,
        stamp,
        eligibility,
    )
}

// A housekeeping packet.
#[unsafe(no_mangle)]
pub extern "C" fn mtredovim_notice(
    line: &mut [u32],
    members: &[u32],
    places: &[u32],
    notices: &mut [u32],
    len: u32,
    tag: u32,
    eligibility: &mut u32,
) -> u32
    ensures { Does (inl (notice len tag)) line.old (tables members.now places.now notices.old) (spoken result (eligibility.new ∷ []) [] line.new) (tables members.now places.now notices.new) }
{
    if !is_sound(line, members, places, notices) {
        *eligibility = 0;
        return 1;
    }
    tested::mtredovim_notice_tested(line, members, places, notices, len, tag, eligibility)
}

// A connection ends.
#[unsafe(no_mangle)]
pub extern "C" fn mtredovim_close(
    line: &mut [u32],
    members: &mut [u32],
    places: &[u32],
    notices: &[u32],
    c: u32,
) -> u32
    ensures { Does (inl (close c)) line.old (tables members.old places.now notices.now) (spoken result [] [] line.new) (tables members.new places.now notices.now) }
{
    if !is_sound(line, members, places, notices) {
        return 1;
    }
    tested::mtredovim_close_tested(line, members, places, notices, c)
}

// One tick.
#[unsafe(no_mangle)]
pub extern "C" fn mtredovim_tick(
    line: &mut [u32],
    members: &mut [u32],
    places: &mut [u32],
    notices: &mut [u32],
    departure: &mut [u32; DEPARTURE],
) -> u32
    ensures { Does (inl tick) line.old (tables members.old places.old notices.old) (spoken result [] departure.new line.new) (tables members.new places.new notices.new) }
{
    if !is_sound(line, members, places, notices) {
        *departure = [0; DEPARTURE];
        return 1;
    }
    tested::mtredovim_tick_tested(line, members, places, notices, departure)
}

// Many ticks.
#[unsafe(no_mangle)]
pub extern "C" fn mtredovim_ticks(
    line: &mut [u32],
    members: &mut [u32],
    places: &mut [u32],
    notices: &mut [u32],
    n: u32,
    done: &mut u32,
    departure: &mut [u32; DEPARTURE],
) -> u32
    ensures { Does (inr n) line.old (tables members.old places.old notices.old) (spoken result (done.new ∷ []) departure.new line.new) (tables members.new places.new notices.new) }
{
    if !is_sound(line, members, places, notices) {
        *done = 0;
        *departure = [0; DEPARTURE];
        return 1;
    }
    tested::mtredovim_ticks_tested(line, members, places, notices, n, done, departure)
}

// Whether the four tables are sound: 0, or 1.
#[unsafe(no_mangle)]
pub extern "C" fn mtredovim_test(
    line: &[u32],
    members: &[u32],
    places: &[u32],
    notices: &[u32],
) -> u32
    ensures { result ≡ cond (sound_lent line.now (tables members.now places.now notices.now)) 0 1 }
{
    if is_sound(line, members, places, notices) {
        return 0;
    }
    1
}
