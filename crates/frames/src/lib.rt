// Document 02, R-13: the second discipline for one line, source document 001's framed service. The two records that the rules and the code share; a held packet and a
// notice are those of crate `rules`. The rules themselves stand in specs/.
#![tactic(auto)]

// One frame length T in ticks, the largest packet S in units, and R-4's silence after each packet in ticks.
#[derive(Clone, Copy, Default, PartialEq, Eq)]
pub struct Framing {
    pub frame: u32,
    pub largest: u32,
    pub silence: u32,
}

// A connection as it was admitted: r units per frame, p places.
#[derive(Clone, Copy, Default, PartialEq, Eq)]
pub struct Share {
    pub units: u32,
    pub places: u32,
}
