// Reading: one pass over the words of a book, which finds the first record that is faulty by itself (numbers 5 to 10, 14 and 17) and gathers
// the sums of the template. It stops at every cover, so that whoever holds the register can draw it; it touches no buffer itself.
#![tactic(auto)]

pub mod cursor;
mod items;
mod protections;
mod runs;
mod steps;
