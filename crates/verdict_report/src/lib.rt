// The text of a verdict, as a person reads it.
#![tactic(auto)]

mod lines;
mod sound;
mod verdicts;

pub use sound::SoundText;
pub use verdicts::{sound_text, unsound_text, verdict_text};
