// A quiet press that is left alone sends no vote; no code.
#![tactic(auto)]
