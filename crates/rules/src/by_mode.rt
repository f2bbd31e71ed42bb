// By-mode: each mode of a plan has its own rule, one of three.
ghost use Rattle.std.specs.Prelude.{◌≡◌, None, slice_index_or};
ghost use Rattle.plan.specs.Held.{plan_of};
ghost use Rattle.rules.specs.ByMode.{seated, rule_codes, by_mode, CodesOf};
ghost use Rattle.rules.specs.Orders.{by_mode_code};
ghost use Rattle.rules.specs.ByModeStrict.{by_mode_strict};

use crate::codes::rule_codes;
use crate::jobs::Job;
use crate::rule::Rule;
use ordering::Order;
use plan::{MODES, Plan};

// Three rules in seats, and the codes of a plan's modes. Jobs of different modes go by mode number. Jobs of one mode go by the
// first seat whose rule has the mode's code; if no seat has it, or the plan has no such mode, the third seat decides. A board has no
// heap, so the codes are an array.
#[derive(Debug, Drop)]
pub struct ByMode<A, B, C> {
    first: A,
    second: B,
    third: C,
    codes: [Option<u8>; MODES],
}

impl<A: Rule, B: Rule, C: Rule> ByMode<A, B, C> {
    // The rule of a plan, with these rules in the seats. Whatever rules they are, jobs then go as is said above, case by case.
    pub fn new(plan: &Plan, first: A, second: B, third: C) -> ByMode<A, B, C>
        ensures value { result ≡ record { first = first; second = second; third = third; codes = rule_codes (plan_of plan.now) } }
        ensures law { CodesOf (plan_of plan.now) result.codes }
    {
        ByMode {
            first,
            second,
            third,
            codes: rule_codes(plan),
        }
    }

    // The code of a mode, where there is one.
    fn code(&self, mode: u8) -> Option<u8>
        ensures { result ≡ slice_index_or self.now.codes mode None }
    {
        self.codes.get(usize::from(mode)).copied().flatten()
    }
}

impl<A: Rule, B: Rule, C: Rule> Order<Job> for ByMode<A, B, C> {
    ghost before = { λ rule. by_mode (seated A.Rule.CODE (A.Order.before rule.first)) (seated B.Rule.CODE (B.Order.before rule.second)) (seated C.Rule.CODE (C.Order.before rule.third)) rule.codes };

    ghost strict = { λ order. by_mode_strict _ _ _ order.codes (A.Order.strict order.first) (B.Order.strict order.second) (C.Order.strict order.third) };

    fn goes_before(&self, a: &Job, b: &Job) -> bool {
        // By hand, since it goes on with the order of a seat.
        if a.mode != b.mode {
            return a.mode < b.mode;
        }
        let code = self.code(a.mode);
        if code == Some(A::CODE) {
            self.first.goes_before(a, b)
        } else if code == Some(B::CODE) {
            self.second.goes_before(a, b)
        } else {
            self.third.goes_before(a, b)
        }
    }
}

impl<A: Rule, B: Rule, C: Rule> Rule for ByMode<A, B, C> {
    const CODE: u8 = 3;

    ghost CODE = { by_mode_code };
}
