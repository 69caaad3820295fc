// What the numbers of a trace record name: the link of an `LK`, of an `LE` and of an `LW`, the connection of a `CN` and of a `CS`; the framing of an `LF`, the share of a `CF`. The replay and the firmware
// get them through these.
#![tactic(auto)]

ghost use Rattle.std.specs.Prelude.{◌≡◌, [], ◌∷◌, ◌++◌};
ghost use Rattle.rules.specs.Model.{no_link};
ghost use Rattle.named.specs.Named.{link_named, framing_named, connection_named, stamped_named, share_named};

use frames::{Framing, Share};
use limits::MAX_LEVELS;
use rules::{Connection, Link};

// Eight numbers, each in four bytes.
fn wide(numbers: [u16; 8]) -> [u32; 8]
    ensures { result ≡ numbers }
{
    numbers.map(u32::from)
}

// The link of an `LK`: its stand-by queue is off, and it has no windows.
pub fn link_named(levels: u8, largest: u16, silence: u8, bounds: [u16; 8]) -> Link
    ensures { result ≡ link_named (levels ∷ largest ∷ silence ∷ 0 ∷ bounds) }
{
    Link {
        levels: levels as u32,
        largest: largest as u32,
        silence: silence as u32,
        early: 0,
        bounds: wide(bounds),
        windows: [0; MAX_LEVELS as usize],
    }
}

// The link of an `LE`: the same with its setting.
pub fn stand_by_named(levels: u8, largest: u16, silence: u8, early: u8, bounds: [u16; 8]) -> Link
    ensures { result ≡ link_named (levels ∷ largest ∷ silence ∷ early ∷ bounds) }
{
    Link {
        early: early as u32,
        ..link_named(levels, largest, silence, bounds)
    }
}

// The link of an `LW`: the same with its windows.
pub fn windows_named(
    levels: u8,
    largest: u16,
    silence: u8,
    early: u8,
    bounds: [u16; 8],
    windows: [u16; 8],
) -> Link
    ensures { result ≡ link_named (levels ∷ largest ∷ silence ∷ early ∷ bounds ++ windows) }
{
    Link {
        windows: wide(windows),
        ..stand_by_named(levels, largest, silence, early, bounds)
    }
}

// The framing of an `LF`.
pub fn framing_named(frame: u16, largest: u16, silence: u8) -> Framing
    ensures { result ≡ framing_named (frame ∷ largest ∷ silence ∷ []) }
{
    Framing {
        frame: frame as u32,
        largest: largest as u32,
        silence: silence as u32,
    }
}

// The connection of a `CN`: of the first kind.
pub fn connection_named(level: u8, gap: u16, size: u16, window: u16, average: u16) -> Connection
    ensures { result ≡ connection_named (level ∷ gap ∷ size ∷ window ∷ average ∷ []) }
{
    Connection {
        level: level as u32,
        gap: gap as u32,
        size: size as u32,
        window: window as u32,
        average: average as u32,
        kind: 0,
        allowance: 0,
    }
}

// The connection of a `CS`: of the second kind.
pub fn stamped_named(level: u8, gap: u16, size: u16, allowance: u16) -> Connection
    ensures { result ≡ stamped_named (level ∷ gap ∷ size ∷ allowance ∷ []) }
{
    Connection {
        kind: 1,
        allowance: allowance as u32,
        ..connection_named(level, gap, size, 0, 0)
    }
}

// The share of a `CF`.
pub fn share_named(units: u16, places: u16) -> Share
    ensures { result ≡ share_named (units ∷ places ∷ []) }
{
    Share {
        units: units as u32,
        places: places as u32,
    }
}

// No link.
pub fn no_link() -> Link
    ensures { result ≡ no_link }
{
    Link {
        levels: 0,
        largest: 0,
        silence: 0,
        early: 0,
        bounds: [0; MAX_LEVELS as usize],
        windows: [0; MAX_LEVELS as usize],
    }
}
