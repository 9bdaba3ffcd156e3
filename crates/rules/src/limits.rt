// The limits that document 01 sets.
use crate::lengths;

pub const BOOK_WORDS: usize = 1 << 20;

pub const ROWS: usize = 22;
// b is 0 to 4,096.
pub const PROTECTIONS: u32 = 4096;
// "Amounts called days run from 0 to 65,535."
pub const DAYS: u32 = 65535;
// "both 1 to 32": n and the count of a basket's names.
pub const NAMES: u32 = 32;
// "a quality grade 0 to 31, larger is worse; grades 0 to 9 qualify".
pub const GRADE: u32 = 31;

pub const QUALIFYING_GRADE: u32 = 9;
// "days since 1 January 2000, 0 to 36,524", the last of which is 31 December 2099.
pub const LAST_DATE: u32 = 36524;
// Where the records behind the head begin.
pub const FIRST_RECORD: usize = lengths::HEAD;
// The entries of the register of those who lend none.
pub const OWN_ENTRIES: usize = 1024;
