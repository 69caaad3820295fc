// The five records that the rules and the code share, declared once so that a contract needs no conversion. The rules themselves stand in specs/.
#![tactic(auto)]

// Document 01, "Link, connections, places": n levels, the largest packet S, a delay bound for each level, level 1 first. Document 02, R-4: the silence
// that the line needs after each packet, in ticks. R-11: the stand-by queue, 1 where it is on, 0 where it is off: with nothing else to send, a line whose queue is
// on sends held packets early. R-12: a window for each level; each is 0 where the link has none.
#[derive(Clone, Copy, Default, PartialEq, Eq)]
pub struct Link {
    pub levels: u32,
    pub largest: u32,
    pub silence: u32,
    pub early: u32,
    pub bounds: [u32; 8],
    pub windows: [u32; 8],
}

// The same section: a connection as it was admitted. Document 02, R-6: its averaging window and its average gap, both 0 where it has none. R-9: its kind, 0
// where its packets are spaced by its gap, 1 where each brings a stamp; and its allowance, 0 of the first kind.
#[derive(Clone, Copy, Default, PartialEq, Eq)]
pub struct Connection {
    pub level: u32,
    pub gap: u32,
    pub size: u32,
    pub window: u32,
    pub average: u32,
    pub kind: u32,
    pub allowance: u32,
}

// The same section: a held packet.
#[derive(Clone, Copy, Default, PartialEq, Eq)]
pub struct Packet {
    pub connection: u32,
    pub len: u32,
    pub tag: u32,
    pub arrival: u32,
    pub eligibility: u32,
}

// Document 02, R-1: a housekeeping packet that waits below all levels, a notice for short. It is eligible on arrival.
#[derive(Clone, Copy, Default, PartialEq, Eq)]
pub struct Notice {
    pub len: u32,
    pub tag: u32,
    pub arrival: u32,
}

// Document 02, R-2: what a level test says. The lowest level that is short, and the units by which it is over; both 0 where none is.
#[derive(Clone, Copy, Default, PartialEq, Eq)]
pub struct Short {
    pub level: u32,
    pub units: u64,
}
