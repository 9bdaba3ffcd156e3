// The archive libaddon_bench.a, for `make bench` and no part of the product: the weighted add-on worked out in three ways.
#![tactic(auto)]

pub mod export;
