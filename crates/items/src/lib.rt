// What the entries of a list say, and how a list is written: definitions and laws alone.
#![tactic(auto)]
