// Laws of any frame: ranks, cells, placeholders, N_D and symbols on the line; the house rule's rank in closed form; the counts over all phases. No code.

#![tactic(auto)]
