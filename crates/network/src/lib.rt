// Zone parts on channels ("lines") of a maker's own. This crate has no function: specs/ says what he does, proofs/ what he gets.

#![tactic(auto)]
