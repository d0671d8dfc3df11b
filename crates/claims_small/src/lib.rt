// This crate has no code. What it claims is in specs/SmallDemand.antt; the proof is in proofs/SmallDemand.antt.
#![tactic(auto)]
