// Shows the plan file of the folder that it runs in, with the verdict on it, or why the file is refused.
#![tactic(auto)]

use planfile::{file_text, plan_bytes};

fn main(rt: HostRuntime) -> anyhow::Result<()> {
    let bytes = plan_bytes(&rt, "plan.bin")?;
    rt.print(file_text(rt.alloc(), &bytes)?)?;
    Ok(())
}
