// A draft: a plan that keeps the limits of its fields, and is not judged yet.
ghost use Rattle.std.specs.Prelude.{◌≡◌};
ghost use Rattle.plan.specs.Plan.{Within};
ghost use Rattle.plan.specs.Held.{plan_of, plan_table};
ghost use Rattle.plan.specs.Builtin.{least};

use crate::tables::Plan;

// Neither `Copy` nor `Clone`: whoever adopts a draft uses it up.
#[derive(Drop)]
pub struct Draft {
    plan: Plan,
    ghost within: { Within (plan_of plan) },
    ghost blank: { plan_table (plan_of plan) ≡ plan },
}

impl Draft {
    // The draft that is built in, of the least plan there is.
    pub fn least() -> Draft
        ensures { result.plan ≡ plan_table least }
    {
        Draft {
            plan: Plan::least(),
        }
    }

    // The tables of its plan.
    pub fn plan(&self) -> &Plan
        ensures { result.now ≡ self.now.plan }
    {
        &self.plan
    }

    // The draft of tables that hold a plan within the limits.
    pub(crate) fn new(plan: Plan) -> Draft
        requires within { Within (plan_of plan) }
        requires blank { plan_table (plan_of plan) ≡ plan }
        ensures { result.plan ≡ plan }
    {
        Draft { plan }
    }
}
