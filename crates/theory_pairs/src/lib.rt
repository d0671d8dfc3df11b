// This crate has no code. Its definitions are in specs/Pairs.antt; their law is in proofs/Law.antt.
#![tactic(auto)]
