// The text of a sound plan: the longest changeover out of each mode, with the margin of each changeover.
ghost use Rattle.std.specs.Prelude.{Some};
ghost use Rattle.std.specs.Fmt.{WritesOnOk};
ghost use Rattle.plan.specs.Held.{plan_of};
ghost use Rattle.verdict_report.specs.VerdictText.{modes_text, pairs_text, sound_text};

use crate::lines::{write_mode, write_pair};
use std::fmt;
use verdict::SoundPlan;

// A sound plan, which prints as its text.
#[derive(Clone, Copy)]
pub struct SoundText<'a>(pub &'a SoundPlan);

impl fmt::Display for SoundText<'_> {
    ghost output = { λ text. Some (sound_text (plan_of text.0.now.draft.plan)) };

    #[tactic(auto, unfolding(crate::specs::VerdictText::sound_line))]
    fn fmt<W: fmt::Write>(&self, f: &mut fmt::Formatter<W>) -> fmt::Result {
        writeln!(
            f,
            "sound: every changeover ends within every enabling deadline"
        )?;
        write_modes(f, self.0)
    }
}

// All modes, in their order, each with the changeovers from it.
fn write_modes<W: fmt::Write>(f: &mut fmt::Formatter<W>, plan: &SoundPlan) -> fmt::Result
    ensures { WritesOnOk W.write_str_gives f.old result (modes_text (plan_of plan.now.draft.plan)) f.new }
{
    // By number, as a sound plan is asked.
    for mode in 0..plan.modes() {
        let bound = plan.bound(mode).unwrap();
        write_mode(f, mode, bound)?;
        write_pairs(f, plan, mode)?;
    }
    Ok(())
}

// The changeovers from a mode, to each other mode.
#[tactic(auto, using(crate::proofs::Counts::part_written))]
fn write_pairs<W: fmt::Write>(f: &mut fmt::Formatter<W>, plan: &SoundPlan, old: u8) -> fmt::Result
    ensures { WritesOnOk W.write_str_gives f.old result (pairs_text (plan_of plan.now.draft.plan) old) f.new }
{
    // By number, as a sound plan is asked.
    for new in 0..plan.modes() {
        if let Some((bound, deadline)) = plan.changeover(old, new) {
            write_pair(f, new, bound, u32::from(deadline))?;
        }
    }
    Ok(())
}
