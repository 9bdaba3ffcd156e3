// What the correction of one amount does to the exposure of a book, proved about the definitions of the crate `rules`: for each unit row 21 moves by
// at most 1,000 or 2,000 thousandths, by which amount it is (specs/Claims), and by an exact figure where it is a carrying amount or an off-balance
// notional (specs/Effects). No code stands on it.
#![tactic(auto)]
