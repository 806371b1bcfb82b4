// What is told of a run after each advance.
ghost use Rattle.std.specs.Prelude.{◌≡◌};
ghost use Rattle.machine.specs.Numbers.{status_number};

#[derive(Clone, Copy, PartialEq, Eq, Debug)]
pub enum Status {
    Running = 0,
    Ended = 1,
    Faulted = 2,
    AtLid = 3,
}

impl Status {
    pub fn number(self) -> u8
        ensures { result ≡ status_number self }
    {
        self as u8
    }
}
