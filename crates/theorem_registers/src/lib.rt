// Request 1 of the compiled entries: what any series of their calls on one block shows; no code.
#![tactic(auto)]
