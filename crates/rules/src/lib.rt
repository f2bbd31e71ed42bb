// Priority rules: which of two jobs goes first.
#![tactic(auto)]

mod by_mode;
mod codes;
mod jobs;
mod keyed;
mod rule;

pub use by_mode::ByMode;
pub use jobs::Job;
pub use keyed::{DeadlineMonotonic, EarliestDeadline, FileRank};
pub use rule::Rule;
