// Theorems about the definitions of `symbology`, in proofs/; those about the calls stand in `call_laws`. In
// specs/ are definitions that the laws share with contracts below the calls. This crate has no functions.
#![tactic(auto)]
