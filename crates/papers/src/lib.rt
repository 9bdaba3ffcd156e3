// Request A.12, "Which papers to chase": what is proved of every count of settings besides the contract of the crate `settings` (specs/Claims,
// specs/Samples).
#![tactic(auto)]
