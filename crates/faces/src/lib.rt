// What the callers of every discipline may rely on: a caller's notes of a sequence of calls, and what is promised of a call and of a sequence. It stands in specs/; there is no code.
#![tactic(auto)]
