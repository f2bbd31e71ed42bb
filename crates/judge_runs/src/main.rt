// Shows a row of plan files, good and damaged, each as the program `judge` does.
#![tactic(auto)]

use planfile::{file_text, plan_bytes};

// `missing.bin` is not there; `largest.bin` is a plan of the greatest length, 2,504 bytes. The plans from `tight.bin` on are for
// the verdict: deadlines below the bound, equal ones, several pairs that fail, and bounds that equal a deadline.
const FILES: [&str; 24] = [
    "worked.bin",
    "missing.bin",
    "empty.bin",
    "header.bin",
    "last_bit.bin",
    "byte_after.bin",
    "long.bin",
    "start.bin",
    "rule.bin",
    "cost.bin",
    "deadline.bin",
    "separation.bin",
    "cut.bin",
    "pad_and_byte.bin",
    "least.bin",
    "largest.bin",
    "largest_and_byte.bin",
    "tight.bin",
    "tie.bin",
    "first_pair.bin",
    "several.bin",
    "processor_each.bin",
    "one_processor.bin",
    "eight_modes.bin",
];

fn main(rt: HostRuntime) -> anyhow::Result<()> {
    for name in FILES {
        let bytes = plan_bytes(&rt, name)?;
        println!(rt; "{name}")?;
        rt.print(file_text(rt.alloc(), &bytes)?)?;
    }
    Ok(())
}
