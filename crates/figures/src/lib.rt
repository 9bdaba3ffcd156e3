// The figures of document 01, "Factors": the add-on factors of trades and the conversion figures of off-balance items.
#![tactic(auto)]

pub mod conversion;
pub mod factors;
