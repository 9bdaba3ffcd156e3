// The rules of document 01 are the definitions in specs/, from Word to Filing and TwoDesks; the laws about them that several crates
// cite are in proofs/. The structs here are those that both the definitions and the code speak of; the modules name the numbers of
// document 01 for the code of all crates.
#![tactic(auto)]

pub mod amounts;
pub mod causes;
pub mod kinds;
pub mod lengths;
pub mod limits;
pub mod payloads;
pub mod verdicts;

// An entry of the register: a bought protection, and how much of it no cover has drawn yet.
#[repr(C)]
#[derive(Clone, Copy, Debug, PartialEq, Eq, Default)]
pub struct Entry {
    pub entity: u32,
    pub rank: u32,
    pub days: u32,
    pub left: u32,
}

// A cover that is to be drawn from an entry of the register: where its record stands in the book, the entity, rank and days of the
// written credit, what is left of that credit's notional minus loss, the place of the protection in the register, and the amount.
#[derive(Clone, Copy, Debug, PartialEq, Eq)]
pub struct Draw {
    pub at: usize,
    pub entity: u32,
    pub rank: u32,
    pub days: u32,
    pub room: u32,
    pub protection: u32,
    pub amount: u32,
}

// The last day of the first and of the second band of the factors, counted from the reporting date: one and five calendar years.
#[derive(Clone, Copy, Debug, PartialEq, Eq)]
pub struct Bands {
    pub short: u32,
    pub medium: u32,
}

// The sums of which the template is made, in thousandths of the unit, each by the row that it goes into.
#[derive(Clone, Copy, Debug, PartialEq, Eq, Default)]
pub struct Sums {
    pub assets: u64,
    pub deducted: u64,
    pub replacement: u64,
    pub weighted: u64,
    pub posted: u64,
    pub offset: u64,
    pub exempt: u64,
    pub written: u64,
    pub covered: u64,
    pub financed: u64,
    pub netted: u64,
    pub principal: u64,
    pub agent: u64,
    pub committed: u64,
    pub unconverted: u64,
}

// Tier 1 in units, as a gain less a loss, one of which is 0.
#[derive(Clone, Copy, Debug, PartialEq, Eq)]
pub struct Tier1 {
    pub gain: u32,
    pub loss: u32,
}
