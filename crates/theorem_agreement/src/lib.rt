// The promise of agreement, as theorems about the rules; no code.
#![tactic(auto)]
