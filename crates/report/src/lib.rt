// The texts of plans and faults, as a person reads them.
#![tactic(auto)]

mod faults;
mod modes;
mod plans;

pub use faults::fault_text;
pub use plans::draft_text;
