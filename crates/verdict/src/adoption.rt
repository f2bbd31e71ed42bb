// Adopts a draft as a sound plan, or says which pair of modes fails.
ghost use Rattle.std.specs.Prelude.{◌≡◌};
ghost use Rattle.plan.specs.Held.{plan_of};
ghost use Rattle.verdict.specs.Answers.{refusal, adopted};
ghost use Rattle.verdict.specs.Sound.{Judged};
ghost use Rattle.verdict.specs.Verdict.{verdict};

use crate::pairs::check_pairs;
use crate::refusals::Unsound;
use crate::sound::SoundPlan;
use plan::Draft;

// A draft is used up, and adopted exactly when every pair of its modes passes; the place then holds its plan.
// Else the first pair that fails is told, and the place stays as it was.
pub fn adopt(draft: Draft, place: &mut SoundPlan) -> Result<(), Unsound>
    ensures answer { refusal result ≡ verdict (plan_of draft.plan) }
    ensures place { place.new.draft.plan ≡ adopted (verdict (plan_of draft.plan)) draft.plan place.old.draft.plan }
    ensures law { Judged (plan_of draft.plan) (refusal result) }
{
    check_pairs(&draft)?;
    *place = SoundPlan::new(draft);
    Ok(())
}
