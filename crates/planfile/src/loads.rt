// The bytes of a plan file.
ghost use Rattle.std.specs.Prelude.{◌≤◌, IfOk, vec_len};
ghost use Rattle.plan.specs.Sizes.{deciding_bytes};

use std::io::{ErrorKind, Read};
use std::{fs, io};

// One byte more than the longest plan has, which is enough to tell that a file goes on after its plan.
pub const DECIDING_BYTES: usize = 2505;

// The first bytes of a file, `DECIDING_BYTES` of them at most, and none where there is no such file.
pub fn plan_bytes(rt: &HostRuntime, path: &str) -> io::Result<Vec<u8>>
    ensures { IfOk result (λ bytes. vec_len bytes ≤ deciding_bytes) }
{
    let mut bytes = Vec::new(rt.alloc());
    match fs::open(rt, path) {
        Ok(file) => {
            // By `as`, since there is no `From` from `usize` to `u64`.
            file.take(DECIDING_BYTES as u64).read_to_end(&mut bytes)?;
        }
        // Not `?`, since a missing file is no error.
        Err(error) if error.kind() == ErrorKind::NotFound => {}
        Err(error) => return Err(error),
    }
    // No contract tells how much `take` lets through, so the limit is set once more where it can be proved.
    bytes.truncate(DECIDING_BYTES);
    Ok(bytes)
}
