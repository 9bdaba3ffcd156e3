// Request A.9 against the filing before it, proved about the definitions of the crate `rules`: specs/Former is the former filing,
// specs/Claims what is claimed; proofs/Shown and proofs/Changed are the theorems.
#![tactic(auto)]
