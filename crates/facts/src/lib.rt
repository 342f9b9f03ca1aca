// What acceptance says of a plan: its depth, PLC and pilots, a sound frame, the counts over all phases, and a data cell at each phase. No code.

#![tactic(auto)]
