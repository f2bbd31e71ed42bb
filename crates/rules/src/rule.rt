// What a priority rule is.
ghost use Rattle.std.specs.Prelude.{ℕ};

use crate::jobs::Job;
use ordering::Order;

// A priority rule tells of two jobs whether the first goes before the second. It means one order over all jobs: its `Order`, with
// the laws that every order keeps. And it has a code of its own. The crate `own_rule` shows how to write one.
pub trait Rule: Order<Job> {
    // The code, and the same number as clauses name it.
    const CODE: u8;

    ghost CODE: { ℕ };
}
