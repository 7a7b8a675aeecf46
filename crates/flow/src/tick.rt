// The clock from which a step runs.
ghost use Rattle.std.specs.Prelude.{◌≡◌, ◌+◌, ◌<◌};

// No step runs from the clock 1,000,000.
#[derive(Clone, Copy)]
pub struct Tick {
    pub clock: u32,
    ghost early: { clock < 1000000 },
}

impl Tick {
    pub fn new(clock: u32) -> Tick
        requires { clock < 1000000 }
        ensures { result.clock ≡ clock }
    {
        Tick { clock }
    }

    // The clock once the step is done.
    pub fn next(self) -> u32
        ensures { result ≡ self.clock + 1 }
    {
        self.clock + 1
    }
}
