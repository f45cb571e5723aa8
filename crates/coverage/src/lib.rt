// What a joined list is, what it covers and how it is judged: laws alone.
#![tactic(auto)]
