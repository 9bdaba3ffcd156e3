// How many amounts follow the head word of a record: "A record is a word of its kind, then its amounts".
pub const HEAD: usize = 2;

pub const ASSET: usize = 3;

pub const PROTECTION: usize = 3;

pub const DERIVATIVE_SET: usize = 3;

pub const TRADE: usize = 4;

pub const WRITTEN_CREDIT: usize = 5;

pub const COVER: usize = 1;

pub const FINANCING_SET: usize = 0;

pub const FINANCING_TRADE: usize = 7;

pub const OFF_BALANCE: usize = 1;
// Besides the grades of its names.
pub const BASKET: usize = 2;
