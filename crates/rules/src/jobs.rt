// Jobs: the runs of a task.
ghost use Rattle.std.specs.Prelude.{◌≡◌};
ghost use Rattle.rules.specs.Orders.{due};

// A job of a task of a mode: the tick of its release, and the task's relative deadline D. Jobs whose fields are all equal are the
// same job.
#[derive(Clone, Copy, Debug, PartialEq, Eq, Hash)]
pub struct Job {
    pub mode: u8,
    pub task: u8,
    pub release: u32,
    pub deadline: u16,
}

impl Job {
    // The tick at which it is due, its release tick plus D. The sum never wraps.
    pub fn due(&self) -> u64
        ensures { result ≡ due self.now }
    {
        u64::from(self.release) + u64::from(self.deadline)
    }
}
