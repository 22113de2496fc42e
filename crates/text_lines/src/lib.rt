// Lines that a program reads and writes, through lent buffers. No public function has a `requires`.
#![tactic(auto)]

mod input;
mod output;
mod parts;
mod report;

pub use input::{Input, Rest, Unread, line_end};
pub use output::{Output, put, put_number};
pub use parts::Ascii;
pub use report::{
    finish, progress, tell, tell_about, tell_choice, tell_early, tell_fault, tell_missing,
    tell_most, written,
};
