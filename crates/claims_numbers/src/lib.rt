// This crate has no code: it shows that every refusal number which demand 1 allows is given by some bytes. It stands apart since
// its examples compute for long.
#![tactic(auto)]
