// Lines by place and by name: the arguments of a call into a row of numbers, and the fields of records.
// No function has a `requires`.
#![tactic(auto)]

mod arguments;
mod named;
mod names;
mod reader;

pub use arguments::{prepare, read_arguments, read_call};
pub use named::{NAMES, Named, ended};
pub use names::Names;
pub use reader::{Fields, KINDS, Reader, Slot};
