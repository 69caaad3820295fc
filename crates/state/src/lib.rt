// What a caller keeps between the calls, and what a call answers: a hub by value, three lent tables, an answer. Its specs read them as a state of the rules,
// and have the contract of every call.
#![tactic(auto)]

pub use line::answers::say; // an answer with no packet, and with no level short
use rules::Link;

// The part of the state that no table holds: the link, the clock, and what is on the line.
pub type Hub = line::Hub<Link>;

// The answer of a call, and the hub after it. `short` is what the level test said of an admission refused for it, else zeros.
pub type Told = line::Told<Hub>;
