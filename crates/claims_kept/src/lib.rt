// This crate has no code. What it claims is in specs/, in the order of specs/Lib.antt; the proofs are in proofs/.
#![tactic(auto)]
