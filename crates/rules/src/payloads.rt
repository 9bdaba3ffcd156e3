// The bits of a head word's payload (document 01, "Records"): a mark by its bit; a field by its lowest bit and its count of bits; and the
// first payload in which a bit without a meaning is set, X_END.

pub const ASSET_FIDUCIARY: u32 = 0;

pub const ASSET_END: u32 = 1 << 1;

// Protections and written credits alike.
pub const ENTITY: u32 = 0;

pub const ENTITY_BITS: u32 = 16;

pub const RANK: u32 = 16;

pub const RANK_BITS: u32 = 4;

pub const PROTECTION_END: u32 = 1 << 20;

// The marks of margin are bits 0 to 4, that of netting among them.
pub const SET_NETTING: u32 = 0;

pub const MARGIN: u32 = 0;

pub const MARGIN_BITS: u32 = 5;

pub const MARGIN_ALL: u32 = 31;

pub const SET_EXEMPT: u32 = 5;

pub const DERIVATIVE_SET_END: u32 = 1 << 6;

pub const TRADE_CLASS: u32 = 0;

pub const TRADE_CLASS_BITS: u32 = 3;

pub const TRADE_PAYMENTS: u32 = 3;

pub const TRADE_PAYMENTS_BITS: u32 = 8;

pub const TRADE_RESETS: u32 = 11;

pub const TRADE_QUALIFYING: u32 = 12;

pub const TRADE_END: u32 = 1 << 13;

// Classes of trades that are named one by one: bought credit, and the one that is faulty.
pub const CLASS_BOUGHT_CREDIT: u32 = 5;

pub const CLASS_FAULTY: u32 = 7;

pub const WRITTEN_QUALIFYING: u32 = 20;

pub const WRITTEN_TOTAL_RETURN: u32 = 21;

pub const WRITTEN_CLOSE_OUT: u32 = 22;

pub const WRITTEN_CREDIT_END: u32 = 1 << 23;

pub const COVER_PLACE: u32 = 0;

pub const COVER_PLACE_BITS: u32 = 12;

pub const COVER_END: u32 = 1 << 12;

pub const FINANCING_NETTING: u32 = 0;

pub const FINANCING_AGENT: u32 = 1;

pub const FINANCING_FURTHER: u32 = 2;

pub const FINANCING_SET_END: u32 = 1 << 3;

pub const FINANCING_TRADE_NET_SETTLED: u32 = 0;

pub const FINANCING_TRADE_END: u32 = 1 << 1;

// Classes run from 0 to 10; what is committed to is 0, or one more than a class.
pub const OFF_BALANCE_CLASS: u32 = 0;

pub const OFF_BALANCE_CLASS_BITS: u32 = 4;

pub const OFF_BALANCE_CLASS_LAST: u32 = 10;

pub const OFF_BALANCE_COMMITTED: u32 = 4;

pub const OFF_BALANCE_COMMITTED_BITS: u32 = 4;

pub const OFF_BALANCE_COMMITTED_LAST: u32 = 11;

pub const OFF_BALANCE_END: u32 = 1 << 8;

pub const BASKET_NTH: u32 = 0;

pub const BASKET_NTH_BITS: u32 = 6;

pub const BASKET_NAMES: u32 = 6;

pub const BASKET_NAMES_BITS: u32 = 6;

pub const BASKET_END: u32 = 1 << 12;
