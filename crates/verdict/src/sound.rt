// A sound plan: a draft in which every changeover ends in time.
ghost use Rattle.std.specs.Prelude.{◌≡◌, ◌≤◌, length, IfSome, IfOk};
ghost use Rattle.plan.specs.Builtin.{least};
ghost use Rattle.plan.specs.Held.{plan_of, plan_table};
ghost use Rattle.plan.specs.Plan.{Within};
ghost use Rattle.verdict.specs.Answers.{numbered, bound_answer, changeover};
ghost use Rattle.verdict.specs.Bound.{LongestOf};
ghost use Rattle.verdict.specs.Sound.{EveryPairPasses, InTime};

use crate::modes::ModeOf;
use crate::pair::PairOf;
use crate::refusals::NoMode;
use plan::Draft;

// Its plan keeps the limits of the fields, and every pair of its modes passes.
// Neither `Copy` nor `Clone`: one adopted draft is one sound plan.
#[derive(Drop)]
pub struct SoundPlan {
    draft: Draft,
    ghost within: { Within (plan_of draft.plan) },
    ghost sound: { EveryPairPasses (plan_of draft.plan) },
}

impl SoundPlan {
    // The sound plan that is built in, of the built-in draft.
    pub fn least() -> SoundPlan
        ensures { result.draft.plan ≡ plan_table least }
    {
        SoundPlan {
            draft: Draft::least(),
        }
    }

    // The sound plan of a draft whose pairs pass.
    pub(crate) fn new(draft: Draft) -> SoundPlan
        requires { EveryPairPasses (plan_of draft.plan) }
        ensures { result.draft.plan ≡ draft.plan }
    {
        SoundPlan { draft }
    }

    // How many modes it has.
    pub fn modes(&self) -> u8
        ensures { result ≡ length (plan_of self.now.draft.plan).modes }
    {
        self.draft.plan().count
    }

    // The longest changeover out of a mode, in ticks, which is at most every enabling deadline when that mode is left.
    pub fn bound(&self, mode: u8) -> Result<u32, NoMode>
        ensures value { numbered result ≡ bound_answer (plan_of self.now.draft.plan) mode }
        ensures law { IfOk result (LongestOf (plan_of self.now.draft.plan) mode) }
        ensures sound { IfOk result (InTime (plan_of self.now.draft.plan) mode) }
    {
        let mode = ModeOf::of(&self.draft, mode).ok_or(NoMode)?;
        Ok(mode.bound())
    }

    // The longest changeover from one mode to another, in ticks, and the least enabling deadline, which it meets.
    // None where there is no such pair of modes.
    pub fn changeover(&self, old: u8, new: u8) -> Option<(u32, u16)>
        ensures value { result ≡ changeover (plan_of self.now.draft.plan) old new }
        ensures sound { IfSome result (λ pair. pair.0 ≤ pair.1) }
    {
        let pair = PairOf::of(&self.draft, old, new)?;
        Some(pair.judgement())
    }
}
