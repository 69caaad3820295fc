// The calls from C on tables that have been tested, so that they do not test them again. Their `requires` is the caller's duty: include/mtredovim.h.
ghost use Rattle.std.specs.Prelude.{◌≡◌, true, [], ◌∷◌, ◌++◌};
ghost use Rattle.std.proofs.Common.{inl, inr};
ghost use Rattle.std.proofs.Math.Option.{none, some};
ghost use Rattle.either_line.specs.Line.{link_levels, link_frames, admit_level, admit_share, offer, notice, close, tick};
ghost use Rattle.tables.specs.Lent.{tables};
ghost use Rattle.named.specs.Named.{eight_from, link_named, framing_named, connection_named, stamped_named, share_named};
ghost use Rattle.board.specs.Numbers.{sound_lent};
ghost use Rattle.board.specs.Calls.{spoken};
ghost use Rattle.board.specs.Does.{Does};

use super::kept;
use super::kept::{ADMISSION, DEPARTURE, link_of, put_kept, read_kept};
use super::ticking::run_ticks;
use frames::{Framing, Share};
use limits::MAX_LEVELS;
use rules::Connection;

// A link of levels: n levels, the largest packet S, the silence, the setting of the stand-by queue; eight bounds and eight windows.
#[unsafe(no_mangle)]
pub extern "C" fn mtredovim_link_tested(
    line: &mut [u32],
    members: &[u32],
    places: &[u32],
    notices: &[u32],
    levels: u32,
    largest: u32,
    silence: u32,
    early: u32,
    bounds: &[u32; MAX_LEVELS as usize],
    windows: &[u32; MAX_LEVELS as usize],
) -> u32
    requires { sound_lent line.old (tables members.now places.now notices.now) ≡ true }
    ensures { Does (inl (link_levels (link_named (levels ∷ largest ∷ silence ∷ early ∷ (eight_from 0 bounds.now ++ eight_from 0 windows.now))))) line.old (tables members.now places.now notices.now) (spoken result [] [] line.new) (tables members.now places.now notices.now) }
{
    let l = link_of(levels, largest, silence, early, bounds, windows);
    let told = both::link_levels(read_kept(line), members, places, notices, l);
    put_kept(line, told.kept);
    told.verdict
}

// A link of frames: T, S and the silence.
#[unsafe(no_mangle)]
pub extern "C" fn mtredovim_link_frames_tested(
    line: &mut [u32],
    members: &[u32],
    places: &[u32],
    notices: &[u32],
    frame: u32,
    largest: u32,
    silence: u32,
) -> u32
    requires { sound_lent line.old (tables members.now places.now notices.now) ≡ true }
    ensures { Does (inl (link_frames (framing_named (frame ∷ largest ∷ silence ∷ [])))) line.old (tables members.now places.now notices.now) (spoken result [] [] line.new) (tables members.now places.now notices.now) }
{
    let l = Framing {
        frame: frame,
        largest: largest,
        silence: silence,
    };
    let told = both::link_frames(read_kept(line), members, places, notices, l);
    put_kept(line, told.kept);
    told.verdict
}

// A connection regulated by its gap: level, gap, size, averaging window and average gap.
#[unsafe(no_mangle)]
pub extern "C" fn mtredovim_admit_tested(
    line: &mut [u32],
    members: &mut [u32],
    places: &[u32],
    notices: &[u32],
    level: u32,
    gap: u32,
    size: u32,
    window: u32,
    average: u32,
    admission: &mut [u32; ADMISSION],
) -> u32
    requires { sound_lent line.old (tables members.old places.now notices.now) ≡ true }
    ensures { Does (inl (admit_level (connection_named (level ∷ gap ∷ size ∷ window ∷ average ∷ [])))) line.old (tables members.old places.now notices.now) (spoken result admission.new [] line.new) (tables members.new places.now notices.now) }
{
    let x = Connection {
        level: level,
        gap: gap,
        size: size,
        window: window,
        average: average,
        kind: 0,
        allowance: 0,
    };
    let told = both::admit_level(read_kept(line), members, places, notices, x);
    put_kept(line, told.kept);
    *admission = kept::admission_of(told);
    told.verdict
}

// A connection regulated by stamps: level, gap, size, allowance.
#[unsafe(no_mangle)]
pub extern "C" fn mtredovim_admit_stamped_tested(
    line: &mut [u32],
    members: &mut [u32],
    places: &[u32],
    notices: &[u32],
    level: u32,
    gap: u32,
    size: u32,
    allowance: u32,
    admission: &mut [u32; ADMISSION],
) -> u32
    requires { sound_lent line.old (tables members.old places.now notices.now) ≡ true }
    ensures { Does (inl (admit_level (stamped_named (level ∷ gap ∷ size ∷ allowance ∷ [])))) line.old (tables members.old places.now notices.now) (spoken result admission.new [] line.new) (tables members.new places.now notices.now) }
{
    let x = Connection {
        level: level,
        gap: gap,
        size: size,
        window: 0,
        average: 0,
        kind: 1,
        allowance: allowance,
    };
    let told = both::admit_level(read_kept(line), members, places, notices, x);
    put_kept(line, told.kept);
    *admission = kept::admission_of(told);
    told.verdict
}

// A connection of a line with frames: r units a frame, p places.
#[unsafe(no_mangle)]
pub extern "C" fn mtredovim_admit_share_tested(
    line: &mut [u32],
    members: &mut [u32],
    places: &[u32],
    notices: &[u32],
    units: u32,
    room: u32,
    admission: &mut [u32; ADMISSION],
) -> u32
    requires { sound_lent line.old (tables members.old places.now notices.now) ≡ true }
    ensures { Does (inl (admit_share (share_named (units ∷ room ∷ [])))) line.old (tables members.old places.now notices.now) (spoken result admission.new [] line.new) (tables members.new places.now notices.now) }
{
    let x = Share {
        units: units,
        places: room,
    };
    let told = both::admit_share(read_kept(line), members, places, notices, x);
    put_kept(line, told.kept);
    *admission = kept::admission_of(told);
    told.verdict
}

// A packet of a connection.
#[unsafe(no_mangle)]
pub extern "C" fn mtredovim_offer_tested(
    line: &mut [u32],
    members: &mut [u32],
    places: &mut [u32],
    notices: &[u32],
    c: u32,
    len: u32,
    tag: u32,
    eligibility: &mut u32,
) -> u32
    requires { sound_lent line.old (tables members.old places.old notices.now) ≡ true }
    ensures { Does (inl (offer c len tag none)) line.old (tables members.old places.old notices.now) (spoken result (eligibility.new ∷ []) [] line.new) (tables members.new places.new notices.now) }
{
    let told = both::offer(read_kept(line), members, places, notices, c, len, tag, None);
    put_kept(line, told.kept);
    *eligibility = told.number;
    told.verdict
}

// A packet that brings a stamp.
#[unsafe(no_mangle)]
pub extern "C" fn mtredovim_offer_stamped_tested(
    line: &mut [u32],
    members: &mut [u32],
    places: &mut [u32],
    notices: &[u32],
    c: u32,
    len: u32,
    tag: u32,
    stamp: u32,
    eligibility: &mut u32,
) -> u32
    requires { sound_lent line.old (tables members.old places.old notices.now) ≡ true }
    ensures { Does (inl (offer c len tag (some stamp))) line.old (tables members.old places.old notices.now) (spoken result (eligibility.new ∷ []) [] line.new) (tables members.new places.new notices.now) }
{
    let told = both::offer(
        read_kept(line),
        members,
        places,
        notices,
        c,
        len,
        tag,
        Some(stamp),
    );
    put_kept(line, told.kept);
    *eligibility = told.number;
    told.verdict
}

// A housekeeping packet.
#[unsafe(no_mangle)]
pub extern "C" fn mtredovim_notice_tested(
    line: &mut [u32],
    members: &[u32],
    places: &[u32],
    notices: &mut [u32],
    len: u32,
    tag: u32,
    eligibility: &mut u32,
) -> u32
    requires { sound_lent line.old (tables members.now places.now notices.old) ≡ true }
    ensures { Does (inl (notice len tag)) line.old (tables members.now places.now notices.old) (spoken result (eligibility.new ∷ []) [] line.new) (tables members.now places.now notices.new) }
{
    let told = both::notice(read_kept(line), members, places, notices, len, tag);
    put_kept(line, told.kept);
    *eligibility = told.number;
    told.verdict
}

// A connection ends.
#[unsafe(no_mangle)]
pub extern "C" fn mtredovim_close_tested(
    line: &mut [u32],
    members: &mut [u32],
    places: &[u32],
    notices: &[u32],
    c: u32,
) -> u32
    requires { sound_lent line.old (tables members.old places.now notices.now) ≡ true }
    ensures { Does (inl (close c)) line.old (tables members.old places.now notices.now) (spoken result [] [] line.new) (tables members.new places.now notices.now) }
{
    let told = both::close(read_kept(line), members, places, notices, c);
    put_kept(line, told.kept);
    told.verdict
}

// One tick.
#[unsafe(no_mangle)]
pub extern "C" fn mtredovim_tick_tested(
    line: &mut [u32],
    members: &mut [u32],
    places: &mut [u32],
    notices: &mut [u32],
    departure: &mut [u32; DEPARTURE],
) -> u32
    requires { sound_lent line.old (tables members.old places.old notices.old) ≡ true }
    ensures { Does (inl tick) line.old (tables members.old places.old notices.old) (spoken result [] departure.new line.new) (tables members.new places.new notices.new) }
{
    let told = both::tick(read_kept(line), members, places, notices);
    put_kept(line, told.kept);
    *departure = kept::departure_of(told);
    told.verdict
}

// Many ticks.
#[unsafe(no_mangle)]
pub extern "C" fn mtredovim_ticks_tested(
    line: &mut [u32],
    members: &mut [u32],
    places: &mut [u32],
    notices: &mut [u32],
    n: u32,
    done: &mut u32,
    departure: &mut [u32; DEPARTURE],
) -> u32
    requires { sound_lent line.old (tables members.old places.old notices.old) ≡ true }
    ensures { Does (inr n) line.old (tables members.old places.old notices.old) (spoken result (done.new ∷ []) departure.new line.new) (tables members.new places.new notices.new) }
{
    let told = run_ticks(read_kept(line), members, places, notices, n);
    put_kept(line, told.kept);
    *done = told.number;
    *departure = kept::departure_of(told);
    told.verdict
}
