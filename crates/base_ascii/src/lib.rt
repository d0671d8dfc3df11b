// This crate has no code. Its definitions are in specs/Ascii.antt.
#![tactic(auto)]
