// Laws about the definitions of the crate `rules` that the crates with code cite, with no code: what a valid record is, bounds of the
// weights by the words read, what an accepted book is known by, and that row 21 is the sum of the items' exposures (specs/Exposure).
#![tactic(auto)]
