// The rules that compare keys in turn: the first that differs decides, and a smaller number goes first.
ghost use Rattle.std.specs.Prelude.{◌≡◌};
ghost use Rattle.std.specs.Ordering.{partial_lt};
ghost use Rattle.std.specs.Fn.{FnReturnsAt};
ghost use Rattle.rules.specs.Orders.{deadline_monotonic, deadline_monotonic_code, earliest_deadline, earliest_deadline_code, file_rank, file_rank_code};
ghost use Rattle.rules.specs.Lawful.{deadline_monotonic_strict, earliest_deadline_strict, file_rank_strict};

use crate::jobs::Job;
use crate::rule::Rule;
use ordering::Order;

// Whether the keys of a job are smaller than those of another. The three rules have no more in common: each names an order, the proof
// that it is one, and a code.
fn goes_by_keys<K: PartialOrd + Drop, F: Fn(&Job) -> K>(keys: F, a: &Job, b: &Job) -> bool
    requires { F.IsAlwaysCallable keys }
    ensures { (k : K) × (l : K) × FnReturnsAt F.Fn keys a.now k × FnReturnsAt F.Fn keys b.now l × (result ≡ partial_lt K.partial_cmp k l) }
{
    keys(a) < keys(b)
}

// Deadline monotonic: D, then task, release tick, mode.
#[derive(Clone, Copy, Debug, PartialEq, Eq, Hash)]
pub struct DeadlineMonotonic;

impl Order<Job> for DeadlineMonotonic {
    ghost before = { λ _. deadline_monotonic };

    ghost strict = { λ _. deadline_monotonic_strict };

    fn goes_before(&self, a: &Job, b: &Job) -> bool {
        goes_by_keys(|job| (job.deadline, job.task, job.release, job.mode), a, b)
    }
}

impl Rule for DeadlineMonotonic {
    const CODE: u8 = 0;

    ghost CODE = { deadline_monotonic_code };
}

// Earliest deadline: the tick at which a job is due, then task, release tick, mode.
#[derive(Clone, Copy, Debug, PartialEq, Eq, Hash)]
pub struct EarliestDeadline;

impl Order<Job> for EarliestDeadline {
    ghost before = { λ _. earliest_deadline };

    ghost strict = { λ _. earliest_deadline_strict };

    fn goes_before(&self, a: &Job, b: &Job) -> bool {
        goes_by_keys(|job| (job.due(), job.task, job.release, job.mode), a, b)
    }
}

impl Rule for EarliestDeadline {
    const CODE: u8 = 1;

    ghost CODE = { earliest_deadline_code };
}

// File rank: task, then release tick, mode, D.
#[derive(Clone, Copy, Debug, PartialEq, Eq, Hash)]
pub struct FileRank;

impl Order<Job> for FileRank {
    ghost before = { λ _. file_rank };

    ghost strict = { λ _. file_rank_strict };

    fn goes_before(&self, a: &Job, b: &Job) -> bool {
        goes_by_keys(|job| (job.task, job.release, job.mode, job.deadline), a, b)
    }
}

impl Rule for FileRank {
    const CODE: u8 = 2;

    ghost CODE = { file_rank_code };
}
