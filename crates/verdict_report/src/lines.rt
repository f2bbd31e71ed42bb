// The lines of a sound plan.
ghost use Rattle.std.specs.Prelude.{◌≤◌};
ghost use Rattle.std.specs.Fmt.{WritesOnOk};
ghost use Rattle.verdict_report.specs.VerdictText.{mode_line, pair_line};

use std::fmt;
use verdict::Ticks;

// The milliseconds of a tick.
const TICK_MS: u64 = 10;

// The line of a mode: the longest changeover out of it.
#[tactic(auto, unfolding(crate::specs::VerdictText::mode_line))]
pub(crate) fn write_mode<W: fmt::Write>(
    f: &mut fmt::Formatter<W>,
    mode: u8,
    bound: u32,
) -> fmt::Result
    ensures { WritesOnOk W.write_str_gives f.old result (mode_line mode bound) f.new }
{
    let time = Ticks(bound);
    let ms = u64::from(bound) * TICK_MS;
    writeln!(f, "leaving mode {mode}: at most {time}, {ms} ms")
}

// The line of a changeover: the least enabling deadline of the mode that is entered, and the margin.
#[tactic(auto, unfolding(crate::specs::VerdictText::pair_line))]
pub(crate) fn write_pair<W: fmt::Write>(
    f: &mut fmt::Formatter<W>,
    new: u8,
    bound: u32,
    deadline: u32,
) -> fmt::Result
    requires { bound ≤ deadline }
    ensures { WritesOnOk W.write_str_gives f.old result (pair_line new (bound, deadline)) f.new }
{
    let margin = Ticks(deadline - bound);
    let deadline = Ticks(deadline);
    writeln!(
        f,
        "  to mode {new}: least enabling deadline {deadline}, margin {margin}"
    )
}
