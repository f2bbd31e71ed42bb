// The enabling deadlines of a changeover, and the least of them.
ghost use Rattle.std.specs.Prelude.{◌≡◌, take, slice_index};
ghost use Rattle.ordering.specs.Keys.{by_keys};
ghost use Rattle.plan.specs.Held.{plan_of};
ghost use Rattle.plan.specs.Plan.{mode_at};
ghost use Rattle.verdict.specs.Enabling.{deadlines, deadline_keys, earliest, tasks_in};
ghost use Rattle.verdict.specs.EarlierFirst.{deadlines_strict};

use crate::pair::PairOf;
use ordering::{Order, first_in_order};
use plan::{TASKS, Task};

// An enabling deadline, with the task that it is for.
#[derive(Clone, Copy, Debug, PartialEq, Eq, PartialOrd, Ord)]
pub(crate) struct Deadline {
    pub(crate) ticks: u16,
    pub(crate) task: u8,
}

impl Deadline {
    // What unused places hold.
    const BLANK: Deadline = Deadline { ticks: 0, task: 0 };
}

// The earlier deadline goes first, and of equal ones that of the lower task.
#[derive(Clone, Copy)]
struct ByDeadline;

impl Order<Deadline> for ByDeadline {
    ghost before = { λ _. by_keys deadline_keys };

    ghost strict = { λ _. deadlines_strict };

    fn goes_before(&self, a: &Deadline, b: &Deadline) -> bool {
        a < b
    }
}

impl PairOf<'_> {
    // The enabling deadline of a task when the old mode is left.
    fn deadline_of(&self, task: &Task) -> u16
        ensures { result ≡ slice_index task.now.enabling self.now.old }
    {
        task.enabling[usize::from(self.old)]
    }

    // The enabling deadlines of the tasks of the new mode, in the first places. `first_in_order` takes a slice, and a board has no heap.
    fn deadlines(&self) -> [Deadline; TASKS]
        ensures { let p = plan_of self.now.draft.now.plan in take (tasks_in p self.now.new) result ≡ deadlines self.now.old (mode_at p self.now.new).tasks }
    {
        let mut found = [Deadline::BLANK; TASKS];
        // By index: an array made by a function asks for all places, however few tasks there are.
        for (number, task) in self.tasks().iter().enumerate() {
            // The number of a task is small, so `as` is proved to lose nothing.
            found[number] = Deadline {
                ticks: self.deadline_of(task),
                task: number as u8,
            };
        }
        found
    }

    // The least enabling deadline, and the lowest task that has it.
    pub(crate) fn earliest_deadline(&self) -> Deadline
        ensures { result ≡ earliest (plan_of self.now.draft.now.plan) self.now.old self.now.new }
    {
        let deadlines = self.deadlines();
        // Every mode has a task.
        let place = first_in_order(&ByDeadline, &deadlines[..self.tasks().len()]).unwrap();
        deadlines[place]
    }
}
