// Request A.12, "Which papers to chase": how many of the 64 settings of a derivative set's six marks lead to each verdict.
#![tactic(auto)]

mod chosen;
pub mod count;
mod exposure;
mod members;
mod verdicts;

// How many settings lead to each verdict.
#[derive(Clone, Copy, Debug, PartialEq, Eq, Default)]
pub struct Counts {
    pub met: u32,
    pub missed: u32,
    pub no_exposure: u32,
}
