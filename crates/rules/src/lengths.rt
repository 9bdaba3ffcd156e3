// How many words a record has: its head word and its amounts.
use crate::amounts;

pub const HEAD: usize = 1 + amounts::HEAD;

pub const ASSET: usize = 1 + amounts::ASSET;

pub const PROTECTION: usize = 1 + amounts::PROTECTION;

pub const DERIVATIVE_SET: usize = 1 + amounts::DERIVATIVE_SET;

pub const TRADE: usize = 1 + amounts::TRADE;

pub const WRITTEN_CREDIT: usize = 1 + amounts::WRITTEN_CREDIT;

pub const COVER: usize = 1 + amounts::COVER;

pub const FINANCING_SET: usize = 1 + amounts::FINANCING_SET;

pub const FINANCING_TRADE: usize = 1 + amounts::FINANCING_TRADE;

pub const OFF_BALANCE: usize = 1 + amounts::OFF_BALANCE;
// Besides the grades of its names.
pub const BASKET: usize = 1 + amounts::BASKET;
