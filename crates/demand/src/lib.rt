// Demand 3 (docs/RULES.md, demand 3).

#![tactic(auto)]
