// The last record of the chain of a plan (specs/Last), and laws of a chain, step by step. No code.

#![tactic(auto)]
