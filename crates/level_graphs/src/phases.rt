//! A count of phases.

ghost use Rattle.std.specs.Prelude.{◌≡◌, ◌+◌, ◌-◌, ◌<◌, ◌^◌};

/// How many level graphs were built.
#[derive(Debug, Drop)]
pub struct Phases {
    count: u64,
}

impl Phases {
    /// None yet.
    pub fn new() -> Phases
        ensures { result.count ≡ 0 }
    {
        Phases { count: 0 }
    }

    pub fn count(&self) -> u64
        ensures { result ≡ self.now.count }
    {
        self.count
    }

    /// Counts one more.
    pub fn tick(&mut self)
        requires { self.old.count < 2 ^ 64 - 1 }
        ensures { self.new.count ≡ self.old.count + 1 }
    {
        self.count += 1;
    }
}
