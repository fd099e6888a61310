// Theorems about the definitions of `calls`, in proofs/: the three demands. This crate has no functions.
#![tactic(auto)]
