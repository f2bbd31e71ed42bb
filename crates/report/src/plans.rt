// The text of a plan: a first line, its modes, and a last line that says what the tables hold.
ghost use Rattle.std.specs.Prelude.{◌≡◌, Some, IfOk, string_bytes};
ghost use Rattle.std.specs.Fmt.{WritesOnOk};
ghost use Rattle.plan.specs.Held.{plan_of};
ghost use Rattle.report.specs.PlanText.{plan_line, modes_text, plan_text};

use crate::modes::ModeText;
use plan::{Draft, Plan};
use std::alloc::{AllocError, Global};
use std::fmt;

// A plan as a person reads it, within its limits or not.
#[derive(Clone, Copy)]
struct PlanText<'a>(&'a Plan);

impl PlanText<'_> {
    // The first line.
    fn first_line<W: fmt::Write>(&self, f: &mut fmt::Formatter<W>) -> fmt::Result
        ensures { WritesOnOk W.write_str_gives f.old result (plan_line (plan_of self.now.0.now)) f.new }
    {
        let Plan {
            processors,
            start,
            ..
        } = self.0;
        let modes = self.0.modes().len();
        writeln!(
            f,
            "processors {processors}, modes {modes}, start mode {start}"
        )
    }

    // The modes that the plan counts, in their order.
    fn modes<W: fmt::Write>(&self, f: &mut fmt::Formatter<W>) -> fmt::Result
        ensures { WritesOnOk W.write_str_gives f.old result (modes_text (plan_of self.now.0.now)) f.new }
    {
        let count = usize::from(self.0.count);
        for (number, mode) in self.0.modes().iter().enumerate() {
            let text = ModeText {
                number,
                mode,
                count,
            };
            write!(f, "{text}")?;
        }
        Ok(())
    }
}

impl fmt::Display for PlanText<'_> {
    ghost output = { λ text. Some (plan_text (plan_of text.0.now)) };

    fn fmt<W: fmt::Write>(&self, f: &mut fmt::Formatter<W>) -> fmt::Result {
        self.first_line(f)?;
        self.modes(f)?;
        writeln!(
            f,
            "times in ticks; E0 is the enabling deadline when mode 0 is left, and so on"
        )
    }
}

// The text of the plan that a draft holds.
pub fn draft_text(alloc: Global, draft: &Draft) -> Result<String, AllocError>
    ensures { IfOk result (λ s. string_bytes s ≡ plan_text (plan_of draft.now.plan)) }
{
    PlanText(draft.plan()).to_string(alloc)
}
