// The first pair of modes that fails.
ghost use Rattle.std.specs.Prelude.{◌≡◌};
ghost use Rattle.plan.specs.Held.{plan_of};
ghost use Rattle.verdict.specs.Answers.{refusal};
ghost use Rattle.verdict.specs.Verdict.{verdict};

use crate::pair::PairOf;
use crate::refusals::Unsound;
use plan::Draft;

// Whether every pair passes, or else what is told of the first that fails, by the mode that is left and then by the mode that is
// entered.
#[tactic(auto, using(crate::proofs::Told::told_of_no_pair, crate::proofs::Told::told_first))]
pub(crate) fn check_pairs(draft: &Draft) -> Result<(), Unsound>
    ensures { refusal result ≡ verdict (plan_of draft.now.plan) }
{
    let modes = draft.plan().count;
    let mut found = Ok(());
    // A rule of the project: a search over pairs is loops over both modes, left by a label.
    'pairs: for old in 0..modes {
        for new in 0..modes {
            // No board goes from a mode to itself.
            let Some(pair) = PairOf::of(draft, old, new) else {
                continue;
            };
            if let Err(unsound) = pair.check() {
                found = Err(unsound);
                break 'pairs;
            }
        }
    }
    found
}
