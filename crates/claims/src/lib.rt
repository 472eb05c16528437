// No code: what is promised of the whole, over the definitions and contracts of the crates below.
#![tactic(auto)]
