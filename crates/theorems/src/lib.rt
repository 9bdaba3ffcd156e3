// Theorems about the definitions of the crate `rules` that no crate with code cites: the samples of document 01 (specs/Samples), the heads
// that request A.2 speaks of (specs/Heads), baskets with their figures and refusals (specs/Baskets), and the bounds of the rows (specs/Claims).
#![tactic(auto)]
