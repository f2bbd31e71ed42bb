// Why a draft is not adopted, and why a question about a plan is refused.
ghost use Rattle.std.specs.Prelude.{◌≡◌, Some};
ghost use Rattle.verdict.specs.Answers.{no_mode_number, told};
ghost use Rattle.verdict.specs.Text.{no_mode_message, unsound_message};
ghost use Rattle.verdict.specs.Verdict.{unsound_number};

use crate::ticks::Ticks;
use std::error::Error;
use std::fmt;

// The first pair of modes that fails: a changeover from `old` to `new` may take `bound` ticks, and `task`, which has the
// least enabling deadline of the new mode, is to be enabled within `deadline`.
#[derive(Clone, Copy, Debug, PartialEq, Eq)]
pub struct Unsound {
    pub old: u8,
    pub new: u8,
    pub task: u8,
    pub bound: u32,
    pub deadline: u16,
}

// `Unsound` and `NoMode` each have a `number` of their own, as a refusal and a field of a
// file have: no code is generic in what is told by one.
impl Unsound {
    const NUMBER: u8 = 11;

    // The number by which it is told.
    pub fn number(self) -> u8
        ensures { result ≡ unsound_number }
    {
        Self::NUMBER
    }
}

// A line for why the draft is not adopted, and a line for the pair that fails.
impl fmt::Display for Unsound {
    ghost output = { λ unsound. Some (unsound_message (told unsound)) };

    #[tactic(auto, unfolding(crate::specs::Text::unsound_message))]
    fn fmt<W: fmt::Write>(&self, f: &mut fmt::Formatter<W>) -> fmt::Result {
        let number = Self::NUMBER;
        let Unsound { old, new, task, .. } = *self;
        let bound = Ticks(self.bound);
        // Not `u32::from`: with that the search does not close the goal of this text.
        let deadline = Ticks(self.deadline as u32);
        write!(
            f,
            "refused {number}: a changeover may outlast an enabling deadline\n\
             from mode {old} to mode {new}: at most {bound}, and the enabling deadline of task {task} is {deadline}"
        )
    }
}

impl Error for Unsound {}

// There is no such mode.
#[derive(Clone, Copy, Debug, PartialEq, Eq)]
pub struct NoMode;

impl NoMode {
    const NUMBER: u8 = 28;

    // The number by which it is told.
    pub fn number(self) -> u8
        ensures { result ≡ no_mode_number }
    {
        Self::NUMBER
    }
}

impl fmt::Display for NoMode {
    ghost output = { λ _. Some no_mode_message };

    fn fmt<W: fmt::Write>(&self, f: &mut fmt::Formatter<W>) -> fmt::Result {
        write!(f, "refused {}: there is no such mode", Self::NUMBER)
    }
}

impl Error for NoMode {}
