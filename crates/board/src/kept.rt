// The line's table, read as what `both` keeps of a line and written back; whether the four tables are sound; a link that a caller names; the numbers of an answer.
ghost use Rattle.std.specs.Prelude.{◌≡◌, ◌∷◌, ◌++◌, ◌<◌, length};
ghost use Rattle.rules.specs.Limits.{beyond_32_bits};
ghost use Rattle.tables.specs.Lent.{tables};
ghost use Rattle.named.specs.Named.{eight_from, link_named};
ghost use Rattle.board.specs.Numbers.{line_length, hub_in, frames_in, kept_in, numbers_of, sound_lent};
ghost use Rattle.board.specs.Calls.{departure_numbers, admission_numbers};

use both::{Kept, Replied};
use framed_state::Frames;
use frames::Framing;
use limits::MAX_LEVELS;
use rules::Link;
use state::Hub;

// How many numbers the line's table has.
pub const LINE: usize = 31;

// The link of levels, in the first 20 numbers.
fn link_in(line: &[u32]) -> Link
    requires { length line.now ≡ line_length }
    ensures { result ≡ (hub_in line.now).link }
{
    Link {
        levels: line[0],
        largest: line[1],
        silence: line[2],
        early: line[3],
        bounds: [
            line[4], line[5], line[6], line[7], line[8], line[9], line[10], line[11],
        ],
        windows: [
            line[12], line[13], line[14], line[15], line[16], line[17], line[18], line[19],
        ],
    }
}

// The hub of levels.
fn hub_in(line: &[u32]) -> Hub
    requires { length line.now ≡ line_length }
    ensures { result ≡ hub_in line.now }
{
    Hub {
        link: link_in(line),
        clock: line[20],
        wire: line::on_wire(line[21], line[22], line[23]),
    }
}

// The frames.
fn frames_in(line: &[u32]) -> Frames
    requires { length line.now ≡ line_length }
    ensures { result ≡ frames_in line.now }
{
    Frames {
        link: Framing {
            frame: line[24],
            largest: line[25],
            silence: line[26],
        },
        clock: line[27],
        wire: line::on_wire(line[28], line[29], line[30]),
    }
}

// What is kept of the line.
pub(crate) fn read_kept(line: &[u32]) -> Kept
    requires { length line.now ≡ line_length }
    ensures { result ≡ kept_in line.now }
{
    Kept {
        hub: hub_in(line),
        frames: frames_in(line),
    }
}

// Its numbers.
fn numbers_of(h: Kept) -> [u32; LINE]
    ensures { result ≡ numbers_of h }
{
    let levels = h.hub;
    let frames = h.frames;
    let l = levels.link;
    let f = frames.link;
    let b = l.bounds;
    let w = l.windows;
    [
        l.levels,
        l.largest,
        l.silence,
        l.early,
        b[0],
        b[1],
        b[2],
        b[3],
        b[4],
        b[5],
        b[6],
        b[7],
        w[0],
        w[1],
        w[2],
        w[3],
        w[4],
        w[5],
        w[6],
        w[7],
        levels.clock,
        levels.wire.serving,
        levels.wire.to_go,
        levels.wire.silent,
        f.frame,
        f.largest,
        f.silence,
        frames.clock,
        frames.wire.serving,
        frames.wire.to_go,
        frames.wire.silent,
    ]
}

// What is kept of the line is written.
pub(crate) fn put_kept(line: &mut [u32], h: Kept)
    requires { length line.old ≡ line_length }
    ensures { line.new ≡ numbers_of h }
{
    line.copy_from_slice(&numbers_of(h));
}

// Whether the four tables are sound: exactly, for any numbers and any lengths.
pub(crate) fn is_sound(line: &[u32], members: &[u32], places: &[u32], notices: &[u32]) -> bool
    ensures { result ≡ sound_lent line.now (tables members.now places.now notices.now) }
{
    if line.len() != LINE {
        return false;
    }
    both::is_sound(read_kept(line), members, places, notices)
}

// The link that a caller names.
pub(crate) fn link_of(
    levels: u32,
    largest: u32,
    silence: u32,
    early: u32,
    bounds: &[u32; MAX_LEVELS as usize],
    windows: &[u32; MAX_LEVELS as usize],
) -> Link
    ensures { result ≡ link_named (levels ∷ largest ∷ silence ∷ early ∷ (eight_from 0 bounds.now ++ eight_from 0 windows.now)) }
{
    Link {
        levels,
        largest,
        silence,
        early,
        bounds: [
            bounds[0], bounds[1], bounds[2], bounds[3], bounds[4], bounds[5], bounds[6], bounds[7],
        ],
        windows: [
            windows[0], windows[1], windows[2], windows[3], windows[4], windows[5], windows[6],
            windows[7],
        ],
    }
}

// How many numbers tell of an admission: the connection's number, and with verdict 8 the level that is short and its units.
pub const ADMISSION: usize = 3;

// How many numbers tell of a departure: 1 where there is one, else 0; connection, length, tag, arrival, eligibility, finish.
pub const DEPARTURE: usize = 7;

// The numbers of an admission.
pub(crate) fn admission_of(told: Replied) -> [u32; ADMISSION]
    requires { told.short.units < beyond_32_bits }
    ensures { result ≡ admission_numbers told }
{
    let short = told.short;
    [told.number, short.level, short.units as u32]
}

// The numbers of a departure.
pub(crate) fn departure_of(told: Replied) -> [u32; DEPARTURE]
    ensures { result ≡ departure_numbers told }
{
    match told.departed {
        Some(p) => [
            1,
            p.connection,
            p.len,
            p.tag,
            p.arrival,
            p.eligibility,
            both::clock_of(told.kept),
        ],
        None => [0; DEPARTURE],
    }
}
