// The two-desk result of document 01, proved about the definitions of the crate `rules` (specs/TwoDesks): proofs/Claim is the theorem.
#![tactic(auto)]
