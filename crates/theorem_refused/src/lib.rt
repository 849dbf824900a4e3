// A refused call leaves everything as it came, for every entry of gm; no code.
#![tactic(auto)]
