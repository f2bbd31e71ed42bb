// A number of ticks, as a person reads it.
ghost use Rattle.std.specs.Prelude.{Some};
ghost use Rattle.verdict.specs.Text.{ticks};

use std::fmt;

// A number of ticks, which prints with its unit.
#[derive(Clone, Copy, Debug, PartialEq, Eq)]
pub struct Ticks(pub u32);

impl fmt::Display for Ticks {
    ghost output = { λ time. Some (ticks time.0) };

    #[tactic(auto, unfolding(crate::specs::Text::ticks))]
    fn fmt<W: fmt::Write>(&self, f: &mut fmt::Formatter<W>) -> fmt::Result {
        let Ticks(number) = *self;
        let unit = if number == 1 { "tick" } else { "ticks" };
        write!(f, "{number} {unit}")
    }
}
