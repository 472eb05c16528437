// No code: what is given live is the row of the gear sheet.
#![tactic(auto)]
