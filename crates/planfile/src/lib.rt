// Plan files for programs: the bytes of one, and the text that a person reads of it.
#![tactic(auto)]

mod files;
mod loads;

pub use files::file_text;
pub use loads::{DECIDING_BYTES, plan_bytes};
