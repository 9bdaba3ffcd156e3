// The archive, libleverage.a: what callers in C are given, and nothing else. a static library exports the functions of one crate only, so
// every export stands here, whichever crate does the work.
#![tactic(auto)]

mod counts;
pub mod export;
mod packed;
