// No code: what the ends of the shift speeds have to do with the longer sums of the exponential.
#![tactic(auto)]
