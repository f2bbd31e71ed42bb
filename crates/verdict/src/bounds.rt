// The longest changeover out of a mode, in ticks.
ghost use Rattle.std.specs.Prelude.{◌≡◌, ◌*◌, ◌≤◌, length};
ghost use Rattle.plan.specs.Held.{plan_of};
ghost use Rattle.plan.specs.Plan.{mode_at};
ghost use Rattle.plan.specs.Sizes.{most_tasks};
ghost use Rattle.verdict.specs.Bound.{costs, work, largest, bound_formula, bound_of, LongestOf};

use crate::modes::ModeOf;

impl ModeOf<'_> {
    // The work of all tasks. An execution time has 16 bits, so the work of a mode fits.
    fn work(&self) -> u32
        ensures value { let cs = costs (mode_at (plan_of self.now.draft.now.plan) self.now.number) in result ≡ work cs (length cs) }
        ensures bound { result ≤ 65535 * most_tasks }
    {
        self.tasks().iter().map(|task| u32::from(task.cost)).sum()
    }

    // The largest execution time.
    fn largest_cost(&self) -> u16
        ensures { result ≡ largest (costs (mode_at (plan_of self.now.draft.now.plan) self.now.number)) }
    {
        self.tasks().iter().map(|task| task.cost).max().unwrap_or(0)
    }

    // The longest changeover out of this mode.
    pub(crate) fn bound(&self) -> u32
        ensures value { result ≡ bound_of (plan_of self.now.draft.now.plan) self.now.number }
        ensures law { LongestOf (plan_of self.now.draft.now.plan) self.now.number result }
    {
        longest_changeover(
            self.draft.plan().processors,
            self.tasks().len(),
            self.work(),
            self.largest_cost(),
        )
    }
}

// The bound of so many tasks. Each has a processor of its own, or a job waits while all processors are busy with the others:
// their work divided by the processors, and then its own time, come to no more than the quotient.
fn longest_changeover(processors: u8, tasks: usize, total: u32, most: u16) -> u32
    requires some { 1 ≤ processors }
    requires few { total ≤ 65535 * most_tasks }
    ensures { result ≡ bound_formula processors tasks total most }
{
    if tasks <= usize::from(processors) {
        return u32::from(most);
    }
    let processors = u32::from(processors);
    let all_busy = total + (processors - 1) * u32::from(most);
    all_busy / processors
}
