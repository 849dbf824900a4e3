// Every state that the rules give is well formed; no code.
#![tactic(auto)]
