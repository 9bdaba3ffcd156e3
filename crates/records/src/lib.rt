// Records of a book: whether all words of a record are there, the protections, and the two items that are one record, assets and
// off-balance items.
#![tactic(auto)]

pub mod assets;
pub mod commitments;
pub mod presence;
pub mod protections;
pub mod record;
pub mod sums;
