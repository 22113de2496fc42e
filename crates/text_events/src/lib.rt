// Events, written from the one list of crate `text_lists`: `replay` writes the fields as numbers, `runs`
// the tag and the evidence, and the rest in words where it is asked to explain. No function has a
// `requires`.
#![tactic(auto)]

mod event;
mod named;

pub use event::Told;
pub use named::{write_cycle, write_name, write_refused};
