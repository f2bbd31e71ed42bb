// The text of a fault: a line for what is wrong, and a line for where.
ghost use Rattle.std.specs.Prelude.{◌≡◌, IfOk, string_bytes};
ghost use Rattle.fields.specs.Faults.{numbers};
ghost use Rattle.fields.specs.FaultText.{fault_text};

use fields::Fault;
use std::alloc::{AllocError, Global};

// Why a plan file is refused, and where.
#[tactic(auto, using(crate::proofs::FaultLines::fault_lines))]
pub fn fault_text(alloc: Global, fault: &Fault) -> Result<String, AllocError>
    ensures { IfOk result (λ s. string_bytes s ≡ fault_text (numbers fault.now)) }
{
    format!(in alloc; "{fault}\n")
}
