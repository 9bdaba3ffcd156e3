// What stands before the protections: the head of a book, its Tier 1 and its reporting date.
#![tactic(auto)]

pub mod head;
