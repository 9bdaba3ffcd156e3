// The covers of a book, proved about the definitions of the crate `rules`: that protection is conserved and which covers settle, by sums
// (specs/Claims), and that their order is free (specs/Order). No code stands on it.
#![tactic(auto)]
