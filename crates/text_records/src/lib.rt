// The settings, the profile and the state, field by field: one list of the fields of each record, for
// whoever reads, writes or names them. No function has a `requires`.
#![tactic(auto)]

mod blank;
mod fields;
mod given;
mod parts;
mod record;

pub use blank::{blank_state, plain_profile};
pub use fields::read_state;
pub use parts::{Part, name_part};
pub use record::{Record, name_record, read_record};
