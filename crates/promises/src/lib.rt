// What the parts promise: every entry point takes everything that can be passed, and answers by its equation. No code: theorems over the functions.

#![tactic(auto)]
