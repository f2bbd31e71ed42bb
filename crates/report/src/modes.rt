// The text of a mode: a line, and the table of its tasks.
ghost use Rattle.std.specs.Prelude.{◌≡◌, ◌-◌, ◌^◌, ℕ, min, List, [], ◌∷◌, ◌++◌, decimal, take, Some};
ghost use Rattle.std.specs.List.{remove, flat_map};
ghost use Rattle.fields.specs.Line.{line};
ghost use Rattle.std.specs.Fmt.{WritesOnOk, format_spec};
ghost use Rattle.plan.specs.Held.{task_of, mode_of};
ghost use Rattle.report.specs.PlanText.{cell, table_head, task_row, mode_text};

use fields::first;
use plan::{MODES, Mode, Task};
use std::fmt;

// How many columns a cell has.
const CELL: usize = 6;

// The names of the enabling deadlines, by the mode that is left.
const ENABLING: [&str; MODES] = ["E0", "E1", "E2", "E3", "E4", "E5", "E6", "E7"];

// A mode as a person reads it, in a plan that counts `count` modes.
#[derive(Clone, Copy)]
pub(crate) struct ModeText<'a> {
    pub(crate) number: usize,
    pub(crate) mode: &'a Mode,
    pub(crate) count: usize,
}

impl ModeText<'_> {
    // The rest of a row of the table: one of `cells` for each mode of the plan but this one.
    // The clause has the options of `{:>6}` as a `format_spec`.
    fn finish_row<T: fmt::Display, W: fmt::Write>(
        &self,
        f: &mut fmt::Formatter<W>,
        cells: &[T],
    ) -> fmt::Result
        ensures { (text : T → List ℕ) → ((x : T) → T.styled_output x (format_spec 32 3 0 6 (2 ^ 64 - 1)) ≡ Some (text x))
            → WritesOnOk W.write_str_gives f.old result (line (flat_map text (remove (take self.now.count cells.now) self.now.number) ∷ [])) f.new }
    {
        // A row of cells has no count of its own, but that of the plan.
        for (old, cell) in first(cells, self.count).iter().enumerate() {
            if old != self.number {
                write!(f, "{cell:>CELL$}")?;
            }
        }
        writeln!(f)
    }

    // The head of the table.
    fn head<W: fmt::Write>(&self, f: &mut fmt::Formatter<W>) -> fmt::Result
        ensures { WritesOnOk W.write_str_gives f.old result (table_head (min self.now.count 8) self.now.number) f.new }
    {
        f.write_str("  task     C     D     T")?;
        self.finish_row(f, &ENABLING)
    }

    // The row of one task: its number and times, and its enabling deadlines.
    fn row<W: fmt::Write>(
        &self,
        f: &mut fmt::Formatter<W>,
        number: usize,
        task: &Task,
    ) -> fmt::Result
        ensures { WritesOnOk W.write_str_gives f.old result (task_row self.now.number number (task_of self.now.count task.now)) f.new }
    {
        write_times(f, number, task)?;
        self.finish_row(f, &task.enabling)
    }
}

// The first cells of the row of a task: its number, C, D and T.
#[tactic(auto, using(crate::proofs::Cells::number_cell))]
fn write_times<W: fmt::Write>(f: &mut fmt::Formatter<W>, number: usize, task: &Task) -> fmt::Result
    ensures { WritesOnOk W.write_str_gives f.old result (cell (decimal number) ++ (cell (decimal task.now.cost) ++ (cell (decimal task.now.deadline) ++ cell (decimal task.now.separation)))) f.new }
{
    let Task {
        cost,
        deadline,
        separation,
        ..
    } = task;
    write!(
        f,
        "{number:>CELL$}{cost:>CELL$}{deadline:>CELL$}{separation:>CELL$}"
    )
}

impl fmt::Display for ModeText<'_> {
    ghost output = { λ m. Some (mode_text (min m.count 8) m.number (mode_of m.count m.mode.now)) };

    fn fmt<W: fmt::Write>(&self, f: &mut fmt::Formatter<W>) -> fmt::Result {
        writeln!(f, "mode {}, rule {}", self.number, self.mode.rule)?;
        self.head(f)?;
        for (number, task) in self.mode.tasks().iter().enumerate() {
            self.row(f, number, task)?;
        }
        Ok(())
    }
}
