// The filing of a book: `file` answers number, place and verdict, and leaves the rows and the register as document 01 says.
#![tactic(auto)]

pub mod admit;
pub mod alone;
mod early;
pub mod file;
mod report;
