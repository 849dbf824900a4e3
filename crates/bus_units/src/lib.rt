// One cycle through frames, by each unit alone: what it sends, hears, reads and decides on a bus, as definitions and theorems; no code.
#![tactic(auto)]
