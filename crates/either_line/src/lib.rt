// Document 02, R-13: one line has one discipline, the first one that is linked. The rules stand in specs/; there is no code.
#![tactic(auto)]
