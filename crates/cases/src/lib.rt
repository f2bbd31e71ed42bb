// Worked examples: a table of facts of the definitions, and the worked plan as code.
#![tactic(auto)]

ghost use Rattle.std.specs.Prelude.{◌≡◌};
ghost use Rattle.plan.specs.Held.{plan_of};
ghost use Rattle.cases.specs.Table.{worked, worked_file, Facts};

use plan::{Draft, read};
use verdict::{SoundPlan, adopt};

// How many bytes the file of the worked plan has.
const BYTES: usize = 18;

// The file of the worked plan: two processors, and two modes of one task each.
const WORKED_FILE: [u8; BYTES] = [
    0x24, 0x00, 0x00, 0x60, 0x00, 0xa0, 0x01, 0x00, 0x00, 0x88, 0x00, 0x20, 0x00, 0x30, 0x00, 0x48,
    0x00, 0x18,
];

// The file of the worked plan. Every row of the table holds.
pub fn worked_file() -> [u8; BYTES]
    ensures file { result ≡ worked_file }
    ensures facts { Facts }
{
    WORKED_FILE
}

// The worked plan as a draft.
pub fn worked_plan() -> Draft
    ensures { plan_of result.plan ≡ worked }
{
    let mut draft = Draft::least();
    read(&worked_file(), &mut draft).unwrap();
    draft
}

// The worked plan as a sound plan.
pub fn worked_sound_plan() -> SoundPlan
    ensures { plan_of result.draft.plan ≡ worked }
{
    let mut plan = SoundPlan::least();
    adopt(worked_plan(), &mut plan).unwrap();
    plan
}
