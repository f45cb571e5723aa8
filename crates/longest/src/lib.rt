// How long a book and a list can be: laws alone.
#![tactic(auto)]
