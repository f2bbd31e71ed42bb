// Reads a plan file into a draft, or says what is wrong with it.
ghost use Rattle.std.specs.Prelude.{◌≡◌, is_ok, MatchResult};
ghost use Rattle.plan.specs.Held.{plan_of};
ghost use Rattle.plan.specs.Decode.{decode};
ghost use Rattle.plan.specs.Law.{refusal as told_by, refused_as, numbered, tabled, placed, Drafted, Refused, AcceptsExactly, FrontTells};

use crate::draft::Draft;
use crate::reader::read_plan;
use crate::tables::Plan;
use fields::{BitReader, Fault, Field, Owner, Refusal};

// The tables of the plan in a file, after which nothing but padding may come.
fn tables_in(bytes: &[u8]) -> Result<Plan, Fault>
    ensures { numbered result ≡ tabled (decode bytes.now) }
{
    let mut reader = BitReader::new(bytes);
    let plan = read_plan(&mut reader)?;
    // One of two results, for which an `if let` is no plainer.
    match reader.stray() {
        Some(bit) => Err(Fault {
            refusal: Refusal::Trailing,
            field: Field::Padding,
            owner: Owner::PLAN,
            bit,
        }),
        None => Ok(plan),
    }
}

// The draft in a file, and with it that just the layouts of plans are accepted.
fn draft_in(bytes: &[u8]) -> Result<Draft, Fault>
    ensures cases { MatchResult result (λ draft. Drafted bytes.now draft.plan) (λ fault. Refused bytes.now fault) }
    ensures front { FrontTells bytes.now }
{
    let plan = tables_in(bytes)?;
    Ok(Draft::new(plan))
}

// Bytes of any length and content are decoded, or refused with what is told of them; a refusal leaves the place as it was.
// They are accepted exactly when they are the layout of a plan within the limits, and the draft is then that plan.
// The first 2,505 bytes of a file tell as much as the whole.
pub fn read(bytes: &[u8], place: &mut Draft) -> Result<(), Fault>
    ensures answer { told_by result ≡ refused_as (decode bytes.now) }
    ensures place { place.new.plan ≡ placed (decode bytes.now) place.old.plan }
    ensures law { AcceptsExactly bytes.now (is_ok result) (plan_of place.new.plan) }
    ensures front { FrontTells bytes.now }
{
    *place = draft_in(bytes)?;
    Ok(())
}
