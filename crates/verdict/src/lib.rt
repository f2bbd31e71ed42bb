// The verdict on a plan: the longest changeover out of each mode, and whether every changeover ends in time.
#![tactic(auto)]

mod adoption;
mod bounds;
mod deadlines;
mod modes;
mod pair;
mod pairs;
mod refusals;
mod sound;
mod ticks;

pub use adoption::adopt;
pub use refusals::{NoMode, Unsound};
pub use sound::SoundPlan;
pub use ticks::Ticks;
