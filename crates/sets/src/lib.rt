// Request A.1, "Show me the set": the words of a set, as a part of the lent book.
#![tactic(auto)]

pub mod bounds;
pub mod kinds;
pub mod search;
pub mod show;
pub mod sought;
