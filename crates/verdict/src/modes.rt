// The modes of a draft.
ghost use Rattle.std.specs.Prelude.{◌≡◌, ◌<◌, ◌≤◌, length, IfSome, IfNone};
ghost use Rattle.plan.specs.Held.{plan_of};
ghost use Rattle.verdict.specs.Tables.{HoldTasks};

use plan::{Draft, Task};

// The number of a mode, with the draft that has this mode.
#[derive(Clone, Copy)]
pub(crate) struct ModeOf<'a> {
    pub(crate) draft: &'a Draft,
    pub(crate) number: u8,
    ghost there: { number < length (plan_of draft.now.plan).modes },
}

impl<'a> ModeOf<'a> {
    // The mode with a number, where there is one.
    pub(crate) fn of(draft: &'a Draft, number: u8) -> Option<ModeOf<'a>>
        ensures some { IfSome result (λ mode. (mode.draft.now ≡ draft.now) × (mode.number ≡ number)) }
        ensures none { IfNone result (length (plan_of draft.now.plan).modes ≤ number) }
    {
        // An `if`, since the ghost field rests on its test.
        if number < draft.plan().count {
            Some(ModeOf { draft, number })
        } else {
            None
        }
    }

    // Its tasks.
    pub(crate) fn tasks(&self) -> &'a [Task]
        ensures { HoldTasks (plan_of self.now.draft.now.plan) self.now.number result.now }
    {
        self.draft.plan().modes()[usize::from(self.number)].tasks()
    }
}
