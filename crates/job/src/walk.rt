// A walk over the pipes in their order.
ghost use Rattle.std.specs.Prelude.{◌≡◌, ◌+◌, ◌≤◌};
ghost use Rattle.job.specs.Walk.{begun, past};

// How far a walk has come: the pipe it stands at, with the numbers of its first section and of its first reach.
#[derive(Clone, Copy)]
pub struct Walk {
    pub pipe: usize,
    pub section: usize,
    pub reach: usize,
}

impl Walk {
    // At the first pipe.
    pub fn begun() -> Walk
        ensures { result ≡ begun }
    {
        Walk {
            pipe: 0,
            section: 0,
            reach: 0,
        }
    }

    // Past a pipe of so many reaches, which has a section more.
    pub fn past(self, reaches: usize) -> Walk
        requires { (self.pipe ≤ 32768) × (self.section + reaches ≤ 4294967295) × (self.reach ≤ self.section) }
        ensures { result ≡ past self reaches }
    {
        Walk {
            pipe: self.pipe + 1,
            section: self.section + reaches + 1,
            reach: self.reach + reaches,
        }
    }
}
