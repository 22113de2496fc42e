// Requests to the time, schedules, ladders and settings of a link, read from a line, and their answers.
// No function has a `requires`.
#![tactic(auto)]

mod answers;
mod requests;

pub use answers::{Answer, Step};
pub use requests::Request;
