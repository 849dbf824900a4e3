// Demand 3 over lists of calls, of the entries as they are compiled; no code.
#![tactic(auto)]
