// The records of a derivative set by themselves (document 01, records 4 to 7 and "Weighing a set"): their words, their causes, what each adds to the tally
// of its set, and what the set puts into the rows 1 and 4 to 10.
#![tactic(auto)]

mod faults;
pub mod good;
pub mod read;
pub mod rows;
pub mod tally;
