// Two normal files merged.
#![tactic(auto)]
