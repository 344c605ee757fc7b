// The proved table of worked edges (docs/RULES.md, case A, case B and edges).

#![tactic(auto)]
