// This crate has no code. Its definitions are in specs/, their laws in proofs/ under the same names.
#![tactic(auto)]
