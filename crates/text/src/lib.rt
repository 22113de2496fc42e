// The fields of a line: words and decimal numbers, separated by single spaces. A line is a slice
// without its newline. No public function has a `requires`.
#![tactic(auto)]

mod fault;
mod field;
mod number;
mod scan;
mod signed;

pub use fault::Fault;
pub use field::{Field, find, next_field, ordinal};
pub use number::parse;
pub use scan::{Scan, place_of};
pub use signed::parse_signed;
