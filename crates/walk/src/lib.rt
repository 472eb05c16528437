// No code: ways to go through places in turn (specs/Walk.antt), of which rules over each second or each gear are made, and their laws.
#![tactic(auto)]
