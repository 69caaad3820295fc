// The answer log of a trace stands in specs/. The code has no log, only the limit of a trace, and its steps (crate `steps`) are proved to write it.
#![tactic(auto)]

// The bytes of the longest trace.
pub const TRACE_LIMIT: usize = 16777216;
