// Reductions that break: definitions and laws alone.
#![tactic(auto)]
