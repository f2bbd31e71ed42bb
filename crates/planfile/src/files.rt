// The text of a plan file, from its bytes.
ghost use Rattle.std.specs.Prelude.{◌≡◌, IfOk, string_bytes};
ghost use Rattle.plan.specs.Decode.{decode};
ghost use Rattle.plan.specs.Held.{plan_of};
ghost use Rattle.planfile.specs.FileText.{judged_text, file_text};

use plan::{Draft, read};
use report::{draft_text, fault_text};
use std::alloc::{AllocError, Global};
use verdict_report::verdict_text;

// What a draft says, and the verdict on it, which uses the draft up: so no `Display`, which only looks.
fn judged_text(alloc: Global, draft: Draft) -> Result<String, AllocError>
    ensures { IfOk result (λ s. string_bytes s ≡ judged_text (plan_of draft.plan)) }
{
    let plan = draft_text(alloc, &draft)?;
    let verdict = verdict_text(alloc, draft)?;
    format!(in alloc; "{plan}{verdict}")
}

// What the file says and the verdict on it, or why it is refused: one text or another, each handed out whole.
pub fn file_text(alloc: Global, bytes: &[u8]) -> Result<String, AllocError>
    ensures { IfOk result (λ s. string_bytes s ≡ file_text (decode bytes.now)) }
{
    let mut draft = Draft::least();
    match read(bytes, &mut draft) {
        Ok(()) => judged_text(alloc, draft),
        Err(fault) => fault_text(alloc, &fault),
    }
}
