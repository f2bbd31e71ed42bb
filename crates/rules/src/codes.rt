// The codes that a plan gives its modes.
ghost use Rattle.std.specs.Prelude.{◌≡◌, slice_get};
ghost use Rattle.std.specs.Option.{option_map};
ghost use Rattle.plan.specs.Held.{plan_of};
ghost use Rattle.rules.specs.ByMode.{rule_codes, CodesOf};

use plan::{MODES, Mode, Plan};
use std::array;

// The code of a mode, and none where there is no such mode.
fn rule_code(modes: &[Mode], mode: usize) -> Option<u8>
    ensures { result ≡ option_map (λ m. m.rule) (slice_get modes.now mode) }
{
    modes.get(mode).map(|mode| mode.rule)
}

// The code of each mode, and none for a mode that the plan does not have.
pub(crate) fn rule_codes(plan: &Plan) -> [Option<u8>; MODES]
    ensures value { result ≡ rule_codes (plan_of plan.now) }
    ensures law { CodesOf (plan_of plan.now) result }
{
    let modes = plan.modes();
    array::from_fn(|mode| rule_code(modes, mode))
}
