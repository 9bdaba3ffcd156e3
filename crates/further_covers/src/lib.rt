// What further covers do to the exposure of a book, proved about the definitions of the crate `rules` (specs/Claims): it never grows, and falls
// by 900 to 1,000 thousandths for each unit of further cover. No code stands on it.
#![tactic(auto)]
