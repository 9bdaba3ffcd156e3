// The parts of a word (document 01, "Words of the book"): shifts and masks part each word into kind, mark bits and sub-fields.
// The crates above name the parts and use no mask.
#![tactic(auto)]

pub mod amount;
pub mod causes;
pub mod numbers;
pub mod parts;
