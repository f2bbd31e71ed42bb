// Mode plans: their tables and limits, and the bit-packed file that holds one.
#![tactic(auto)]

mod draft;
mod file;
mod modes;
mod reader;
mod tables;

pub use draft::Draft;
pub use file::read;
pub use tables::{MODES, Mode, Plan, TASKS, Task};
