// The texts of verdicts.
ghost use Rattle.std.specs.Prelude.{◌≡◌, IfOk, string_bytes};
ghost use Rattle.plan.specs.Held.{plan_of};
ghost use Rattle.verdict.specs.Answers.{told};
ghost use Rattle.verdict.specs.Text.{unsound_text};
ghost use Rattle.verdict_report.specs.VerdictText.{sound_text, verdict_text};

use crate::sound::SoundText;
use plan::Draft;
use std::alloc::{AllocError, Global};
use verdict::{SoundPlan, Unsound, adopt};

// What is told of a sound plan.
pub fn sound_text(alloc: Global, plan: &SoundPlan) -> Result<String, AllocError>
    ensures { IfOk result (λ s. string_bytes s ≡ sound_text (plan_of plan.now.draft.plan)) }
{
    SoundText(plan).to_string(alloc)
}

// Why a draft is not adopted.
#[tactic(auto, using(verdict::proofs::Text::message_lines))]
pub fn unsound_text(alloc: Global, unsound: &Unsound) -> Result<String, AllocError>
    ensures { IfOk result (λ s. string_bytes s ≡ unsound_text (told unsound.now)) }
{
    format!(in alloc; "{unsound}\n")
}

// What is told of a draft, which is used up: so no `Display`, which only looks.
pub fn verdict_text(alloc: Global, draft: Draft) -> Result<String, AllocError>
    ensures { IfOk result (λ s. string_bytes s ≡ verdict_text (plan_of draft.plan)) }
{
    let mut plan = SoundPlan::least();
    match adopt(draft, &mut plan) {
        Ok(()) => sound_text(alloc, &plan),
        Err(unsound) => unsound_text(alloc, &unsound),
    }
}
