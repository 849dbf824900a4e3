// A node end as 64 registers, as definitions with their laws; no code.
#![tactic(auto)]
