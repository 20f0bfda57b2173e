ghost use Rattle.std.specs.Prelude.{◌≡◌, ◌≤◌};

pub mod kind;

// A tick: the milliseconds 0 to 1,000,000.
#[derive(Clone, Copy, PartialEq, Eq, PartialOrd, Ord, Debug)]
pub struct Tick {
    value: u32,
    ghost ok: { value ≤ 1000000 },
}

impl Tick {
    // The milliseconds.
    pub fn value(self) -> u32
        ensures { result ≡ self.value }
    {
        self.value
    }
}

// A date: never, a tick, or open, in this rising order.
#[derive(Clone, Copy, PartialEq, Eq, PartialOrd, Ord, Debug)]
pub enum Date {
    Never,
    At(Tick),
    Open,
}
