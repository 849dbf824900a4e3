// What the program prints for a table, as a definition, and printed runs by it; no code.
#![tactic(auto)]
