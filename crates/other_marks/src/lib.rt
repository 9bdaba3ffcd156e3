// A derivative set of an accepted book with other marks: the book is accepted as it was, with the same register, and nothing but that set is another
// (specs/Claims), for request A.12.
#![tactic(auto)]
