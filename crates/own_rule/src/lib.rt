// A priority rule of one's own, as a model for others: the latest release goes first.
#![tactic(auto)]

ghost use Rattle.own_rule.specs.Latest.{latest_first, latest_first_code};
ghost use Rattle.ordering.proofs.Grouped.{descending_strict, by_group_strict};
ghost use Rattle.rules.specs.Orders.{file_rank};
ghost use Rattle.rules.specs.Lawful.{file_rank_strict};

use ordering::Order;
use rules::{FileRank, Job, Rule};

// Latest first: the job that was released last goes first, and jobs that were released at one tick go by file rank.
#[derive(Clone, Copy, Debug, PartialEq, Eq, Hash)]
pub struct LatestFirst;

impl Order<Job> for LatestFirst {
    ghost before = { λ _. latest_first };

    ghost strict = { λ _. by_group_strict _ (λ job. job.release) (λ _. file_rank) descending_strict (λ _. file_rank_strict) };

    fn goes_before(&self, a: &Job, b: &Job) -> bool {
        // By hand, since it goes on with another rule's order.
        a.release > b.release || (a.release == b.release && FileRank.goes_before(a, b))
    }
}

impl Rule for LatestFirst {
    const CODE: u8 = 100;

    ghost CODE = { latest_first_code };
}
