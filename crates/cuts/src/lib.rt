// How a book is cut into its records: laws about the definitions of the crate `rules`, for what is said of two books, or of a book and a
// part of it.
#![tactic(auto)]
