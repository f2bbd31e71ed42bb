// Numbers in fields of bits: a reader over borrowed bytes, and what can be wrong with a file.
#![tactic(auto)]

mod bits;
mod fault;
mod fronts;
mod limits;
mod words;

pub use bits::{BitReader, MOST_BYTES};
pub use fault::{Fault, Field, NONE, Owner, Refusal};
pub use fronts::first;
