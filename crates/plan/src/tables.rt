// The tables of a plan, as a board holds them: fixed arrays with counts.
// Places past a count hold zeros, so that equal plans are equal tables. A board has no heap, so these are no `Vec`s.
ghost use Rattle.std.specs.Prelude.{◌≡◌, min, length, take};
ghost use Rattle.plan.specs.Held.{plan_table};
ghost use Rattle.plan.specs.Builtin.{least};
ghost use Rattle.plan.specs.Sizes.{most_modes, most_tasks};

use fields::first;

// The most processors of a board, the most modes of a plan, and the most tasks of a mode.
pub const PROCESSORS: usize = 8;

pub const MODES: usize = 8;

pub const TASKS: usize = 16;

// The greatest execution time, the greatest of the other times, and the greatest code of a rule
// that a file can hold.
pub const MAX_COST: u16 = 4095;

pub const MAX_TIME: u16 = 65535;

pub const MAX_RULE: u16 = 2;

// A task, with its times in ticks. `enabling` has the enabling deadline for each old mode, and 0 for the task's own, as the
// definitions say: with an `Option` for each they would take twice the memory, of which a board has little.
#[derive(Clone, Copy, Debug, PartialEq, Eq)]
pub struct Task {
    pub cost: u16,
    pub deadline: u16,
    pub separation: u16,
    pub enabling: [u16; MODES],
}

impl Task {
    // What unused places hold, as a constant, which cannot call `Default`.
    pub const BLANK: Task = Task {
        cost: 0,
        deadline: 0,
        separation: 0,
        enabling: [0; MODES],
    };
}

// A mode: the code of its priority rule, and its first `count` tasks. The code is a number and no enum, since whoever writes a rule
// gives it a code: tables hold any, and by-mode goes by them.
#[derive(Clone, Copy, Debug, PartialEq, Eq)]
pub struct Mode {
    pub rule: u8,
    pub count: u8,
    pub tasks: [Task; TASKS],
}

impl Mode {
    // What unused places hold, as a constant, which cannot call `Default`.
    pub const BLANK: Mode = Mode {
        rule: 0,
        count: 0,
        tasks: [Task::BLANK; TASKS],
    };

    // The tasks that it counts. (`Plan::modes` is the same of its own table. One type for both would hide the fields by which programs
    // make plans.)
    pub fn tasks(&self) -> &[Task]
        ensures tasks { result.now ≡ take self.now.count self.now.tasks }
        ensures count { length result.now ≡ min self.now.count most_tasks }
    {
        first(&self.tasks, usize::from(self.count))
    }
}

// A plan: processors, the mode that a board begins in, and the first `count` modes.
#[derive(Debug, PartialEq, Eq, Drop)]
pub struct Plan {
    pub processors: u8,
    pub start: u8,
    pub count: u8,
    pub modes: [Mode; MODES],
}

impl Plan {
    // The modes that it counts.
    pub fn modes(&self) -> &[Mode]
        ensures modes { result.now ≡ take self.now.count self.now.modes }
        ensures count { length result.now ≡ min self.now.count most_modes }
    {
        first(&self.modes, usize::from(self.count))
    }

    // The least plan there is: one processor, one mode, and one task that runs for a tick.
    pub(crate) fn least() -> Plan
        ensures { result ≡ plan_table least }
    {
        let mut tasks = [Task::BLANK; TASKS];
        tasks[0] = Task {
            cost: 1,
            deadline: 1,
            separation: 1,
            ..Task::BLANK
        };
        let mut modes = [Mode::BLANK; MODES];
        modes[0] = Mode {
            rule: 0,
            count: 1,
            tasks,
        };
        Plan {
            processors: 1,
            start: 0,
            count: 1,
            modes,
        }
    }
}
