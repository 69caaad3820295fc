// What a caller keeps between the calls of a line of the second discipline, and what a call answers: a `Frames` by value, three lent tables, an answer. Its specs read
// them as a state of crate `frames`, and have the contract of every call.
#![tactic(auto)]

pub use line::answers::say; // an answer with no packet, and nothing short
use frames::Framing;

// The part of the state that no table holds: the link, the clock, and what is on the line.
pub type Frames = line::Hub<Framing>;

// The answer of a call, and the rest of the state after it. `short` is by how much an admission refused with 8 is over, else zeros.
pub type Said = line::Told<Frames>;
