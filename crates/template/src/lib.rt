// The template of document 01, "Rows": the twenty-two rows of the sums and Tier 1, and the verdict.
#![tactic(auto)]

pub mod exposure;
pub mod ratio;
pub mod rows;
mod signed;
mod units;
