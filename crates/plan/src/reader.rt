// The reader of a plan: its fields in their order, into the tables.
ghost use Rattle.std.specs.Prelude.{◌<◌, None, IfOk, ℕ, ◌-◌, ◌≤◌, map, ◌==◌};
ghost use Rattle.std.specs.Borrow.{MutBor};
ghost use Rattle.fields.specs.declared.bits.BitReader.{BitReader};
ghost use Rattle.fields.specs.Layout.{field, each};
ghost use Rattle.fields.specs.declared.fault.Field.TheVariants.{Start};
ghost use Rattle.plan.specs.File.{enabling_layout, task_layout, mode_layout, plan_layout};
ghost use Rattle.plan.specs.Held.{padded, blank_task, blank_mode, task_table, mode_table, plan_table};
ghost use Rattle.plan.specs.Sizes.{most_modes, most_tasks};
ghost use Rattle.fields.specs.Readers.{Answers};
ghost use Rattle.plan.specs.Reading.{ReadsAs, ReadsTable};

use crate::modes::Modes;
use crate::tables::{MAX_COST, MAX_RULE, MAX_TIME, MODES, Mode, PROCESSORS, Plan, TASKS, Task};
use fields::{BitReader, Fault, Field, Owner};

// The greatest numbers in the fields that hold a count less one. By `as`, since there is no `From` from `usize` to `u16`.
const LAST_PROCESSOR: u16 = PROCESSORS as u16 - 1;

const LAST_MODE: u16 = MODES as u16 - 1;

const LAST_TASK: u16 = TASKS as u16 - 1;

// A table of `N` places, of which the first `count` are read one after the other, each by its number. The rest stay blank.
fn read_table<T: Copy, F: Fn(&mut BitReader<'_>, u8) -> Result<T, Fault>, const N: usize>(
    bits: &mut BitReader<'_>,
    count: u8,
    blank: T,
    read: F,
) -> Result<[T; N], Fault>
    requires callable { (p : MutBor BitReader) (i : ℕ) → F.pre read p i }
    requires room { count ≤ N }
    ensures { ReadsTable (F.post read) N blank count bits.old result bits.new }
{
    let mut table = [blank; N];
    // By index, since a proof knows nothing of what is written through a `zip` of the table.
    for number in 0..count {
        table[usize::from(number)] = read(bits, number)?;
    }
    Ok(table)
}

// The enabling deadline of a task for one old mode: the file has none for the task's own. This reader and those below take the numbers
// that their layouts take, so that the two read alike.
#[tactic(auto, unfolding(crate::specs::File::enabling_layout, fields::specs::Layout::whole))]
fn read_enabling_deadline(
    bits: &mut BitReader<'_>,
    mode: u8,
    task: u8,
    old: u8,
) -> Result<u16, Fault>
    ensures { Answers (enabling_layout mode task old).read bits.old result bits.new }
{
    if old == mode {
        return Ok(0);
    }
    let owner = Owner {
        mode: Some(mode),
        task: Some(task),
    };
    bits.number(Field::Enabling, owner, 0, MAX_TIME)
}

// All enabling deadlines of a task, by old mode.
fn read_enabling(
    bits: &mut BitReader<'_>,
    modes: Modes,
    mode: u8,
    task: u8,
) -> Result<[u16; MODES], Fault>
    ensures { ReadsAs (padded most_modes 0) (each modes.count (enabling_layout mode task)) bits.old result bits.new }
{
    read_table(bits, modes.count, 0, |bits, old| {
        read_enabling_deadline(bits, mode, task, old)
    })
}

// One task, each time at least the one before it.
#[tactic(auto, unfolding(crate::specs::File::task_layout, fields::specs::Layout::part, fields::specs::Layout::whole))]
fn read_task(bits: &mut BitReader<'_>, modes: Modes, mode: u8, task: u8) -> Result<Task, Fault>
    ensures { ReadsAs task_table (task_layout modes.count mode task) bits.old result bits.new }
{
    let owner = Owner {
        mode: Some(mode),
        task: Some(task),
    };
    let cost = bits.number(Field::Cost, owner, 1, MAX_COST)?;
    let deadline = bits.number(Field::Deadline, owner, cost, MAX_TIME)?;
    let separation = bits.number(Field::Separation, owner, deadline, MAX_TIME)?;
    let enabling = read_enabling(bits, modes, mode, task)?;
    Ok(Task {
        cost,
        deadline,
        separation,
        enabling,
    })
}

// So many tasks of a mode.
fn read_tasks(
    bits: &mut BitReader<'_>,
    modes: Modes,
    mode: u8,
    count: u8,
) -> Result<[Task; TASKS], Fault>
    requires { count ≤ most_tasks }
    ensures { ReadsAs (λ ts. padded most_tasks blank_task (map task_table ts)) (each count (task_layout modes.count mode)) bits.old result bits.new }
{
    read_table(bits, count, Task::BLANK, |bits, task| {
        read_task(bits, modes, mode, task)
    })
}

// One mode, in a plan of so many modes.
#[tactic(auto, unfolding(crate::specs::File::mode_layout, fields::specs::Layout::part, fields::specs::Layout::whole))]
fn read_mode(bits: &mut BitReader<'_>, modes: Modes, mode: u8) -> Result<Mode, Fault>
    ensures { ReadsAs mode_table (mode_layout modes.count mode) bits.old result bits.new }
{
    let owner = Owner {
        mode: Some(mode),
        task: None,
    };
    // Numbers within these limits fit 8 bits: `as` is proved to lose nothing, where `TryFrom` would need an `unwrap` each time.
    let rule = bits.number(Field::Rule, owner, 0, MAX_RULE)?;
    let last = bits.number(Field::Tasks, owner, 0, LAST_TASK)?;
    let count = last as u8 + 1;
    let tasks = read_tasks(bits, modes, mode, count)?;
    Ok(Mode {
        rule: rule as u8,
        count,
        tasks,
    })
}

// So many modes. Out of line, since a function pays at entry for all its tables, and a file that is refused before its modes needs none.
#[inline(never)]
fn read_modes(bits: &mut BitReader<'_>, modes: Modes) -> Result<[Mode; MODES], Fault>
    ensures { ReadsAs (λ ms. padded most_modes blank_mode (map mode_table ms)) (each modes.count (mode_layout modes.count)) bits.old result bits.new }
{
    read_table(bits, modes.count, Mode::BLANK, |bits, mode| {
        read_mode(bits, modes, mode)
    })
}

// The start mode, which is one of the modes.
fn read_start(bits: &mut BitReader<'_>, modes: Modes) -> Result<u16, Fault>
    ensures reads { Answers (field Start None None 0 (modes.count - 1)).read bits.old result bits.new }
    ensures within { IfOk result (λ start. start < modes.count) }
{
    bits.number(Field::Start, Owner::PLAN, 0, u16::from(modes.count) - 1)
}

// A whole plan, without what may follow it.
#[tactic(auto, unfolding(crate::specs::File::plan_layout, fields::specs::Layout::part, fields::specs::Layout::whole))]
pub(crate) fn read_plan(bits: &mut BitReader<'_>) -> Result<Plan, Fault>
    ensures { ReadsAs plan_table plan_layout bits.old result bits.new }
{
    let processors = bits.number(Field::Processors, Owner::PLAN, 0, LAST_PROCESSOR)?;
    let last = bits.number(Field::Modes, Owner::PLAN, 0, LAST_MODE)?;
    let all = Modes::up_to(last);
    let start = read_start(bits, all)?;
    let modes = read_modes(bits, all)?;
    Ok(Plan {
        processors: processors as u8 + 1,
        start: start as u8,
        count: all.count,
        modes,
    })
}
