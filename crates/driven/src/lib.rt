// No code: what the gears of every second of a row keep through the six corrections.
#![tactic(auto)]
