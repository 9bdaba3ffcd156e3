// Derivative sets (document 01, records 4 to 7, "Weighing a set" and the rows 1 and 4 to 10; request A.3, record 11). A set is read up to its
// next cover, so that whoever holds the register can draw each cover as it is read.
#![tactic(auto)]

pub mod covers;
mod members;
pub mod set;
mod trades;
