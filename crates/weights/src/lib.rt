// How add-ons are weighed (document 01, "Weighing a set"): what stays in of a written credit's add-on, and the weighted add-on of a set.
#![tactic(auto)]

pub mod addon;
pub mod kept;
pub mod share;
