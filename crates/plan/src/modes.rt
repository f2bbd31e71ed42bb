// How many modes a plan has.
ghost use Rattle.std.specs.Prelude.{◌≡◌, ◌+◌, ◌<◌, ◌≤◌};
ghost use Rattle.plan.specs.Sizes.{most_modes};

// A number of modes that a plan can have, and that a board's tables hold.
#[derive(Clone, Copy)]
pub(crate) struct Modes {
    pub(crate) count: u8,
    ghost some: { 1 ≤ count },
    ghost few: { count ≤ most_modes },
}

impl Modes {
    // The modes from number 0 to this one, of which `as` is proved to lose nothing.
    pub(crate) fn up_to(last: u16) -> Modes
        requires { last < most_modes }
        ensures { result.count ≡ last + 1 }
    {
        Modes {
            count: last as u8 + 1,
        }
    }
}
