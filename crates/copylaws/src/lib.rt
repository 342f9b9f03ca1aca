// Laws of the copy that also excludes a range (crate copies): its records, its chain, what it excludes, its PLC, depth and pilots, its N_I,
// and that the walk along its chain can go on where the plan's ended. No code.

#![tactic(auto)]
