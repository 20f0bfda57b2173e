ghost use Rattle.std.specs.Prelude.{◌≡◌, ◌^◌, ◌<◌};

pub mod kind;

// A set of the channels 0 to 15: channel c is bit c.
#[derive(Clone, Copy, PartialEq, Eq, Debug)]
pub struct Channels {
    bits: u16,
    ghost ok: { bits < 2 ^ 16 },
}

impl Channels {
    pub fn bits(self) -> u16
        ensures { result ≡ self.bits }
    {
        self.bits
    }
}
