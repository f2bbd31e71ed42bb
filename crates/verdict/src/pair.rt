// The pairs of modes of a draft, and how they are judged.
ghost use Rattle.std.specs.Prelude.{◌≡◌, IfSome, is_some};
ghost use Rattle.plan.specs.Held.{plan_of};
ghost use Rattle.verdict.specs.Answers.{refusal, is_pair};
ghost use Rattle.verdict.specs.Bound.{bound_of};
ghost use Rattle.verdict.specs.Sound.{Pair};
ghost use Rattle.verdict.specs.Tables.{HoldTasks};
ghost use Rattle.verdict.specs.Verdict.{judgement, in_time, failing};

use crate::modes::ModeOf;
use crate::refusals::Unsound;
use plan::{Draft, Task};

// The numbers of two modes that differ, the old that is left and the new that is entered, with the draft that has both.
#[derive(Clone, Copy)]
pub(crate) struct PairOf<'a> {
    pub(crate) draft: &'a Draft,
    pub(crate) old: u8,
    pub(crate) new: u8,
    ghost pair: { Pair (plan_of draft.now.plan) old new },
}

impl<'a> PairOf<'a> {
    // The pair with these numbers, where there is one.
    pub(crate) fn of(draft: &'a Draft, old: u8, new: u8) -> Option<PairOf<'a>>
        ensures some { is_some result ≡ is_pair (plan_of draft.now.plan) old new }
        ensures same { IfSome result (λ pair. (pair.draft.now ≡ draft.now) × (pair.old ≡ old) × (pair.new ≡ new)) }
    {
        // An `if`, since the ghost field rests on its test.
        let modes = draft.plan().count;
        if old < modes && new < modes && old != new {
            Some(PairOf { draft, old, new })
        } else {
            None
        }
    }

    // The longest changeover out of the old mode.
    fn bound(&self) -> u32
        ensures { result ≡ bound_of (plan_of self.now.draft.now.plan) self.now.old }
    {
        let left = ModeOf {
            draft: self.draft,
            number: self.old,
        };
        left.bound()
    }

    // The tasks of the new mode.
    pub(crate) fn tasks(&self) -> &'a [Task]
        ensures { HoldTasks (plan_of self.now.draft.now.plan) self.now.new result.now }
    {
        let entered = ModeOf {
            draft: self.draft,
            number: self.new,
        };
        entered.tasks()
    }

    // The longest changeover, and the least enabling deadline: a rule of the project has the judgement as two numbers.
    pub(crate) fn judgement(&self) -> (u32, u16)
        ensures { result ≡ judgement (plan_of self.now.draft.now.plan) self.now.old self.now.new }
    {
        (self.bound(), self.earliest_deadline().ticks)
    }

    // Whether the pair passes, or what is told of it.
    #[tactic(auto, unfolding(crate::specs::Verdict::failing))]
    pub(crate) fn check(&self) -> Result<(), Unsound>
        ensures { refusal result ≡ failing (plan_of self.now.draft.now.plan) self.now.old self.now.new }
    {
        let bound = self.bound();
        let earliest = self.earliest_deadline();
        if ends_in_time(bound, earliest.ticks) {
            return Ok(());
        }
        Err(Unsound {
            old: self.old,
            new: self.new,
            task: earliest.task,
            bound,
            deadline: earliest.ticks,
        })
    }
}

// Whether a changeover that takes so long ends within the deadline.
fn ends_in_time(bound: u32, deadline: u16) -> bool
    ensures { result ≡ in_time (bound, deadline) }
{
    bound <= u32::from(deadline)
}
