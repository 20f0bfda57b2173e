ghost use Rattle.std.specs.Prelude.{◌≡◌};
ghost use Rattle.kinds.specs.Sets.{set_ops, of_bits, has, ByChannels};
ghost use Rattle.kinds.specs.SetLaws.{set_laws};

use crate::Kind;
use crate::channels::Channels;

// The set whose channels are the bits that are set.
impl From<u16> for Channels {
    ghost from_gives = { λ n s. s ≡ of_bits n };

    fn from(bits: u16) -> Channels {
        Channels { bits }
    }
}

impl Channels {
    // Whether the set holds a channel. In words of channels, join is union, meet and
    // product are intersection, and the residual holds each channel outside the
    // first set or in the second.
    pub fn has(self, channel: u8) -> bool
        ensures answer { result ≡ has self channel }
        ensures words { ByChannels }
    {
        if channel >= 16 {
            return false;
        }
        (self.bits >> channel) % 2 == 1
    }
}

// The order by hand: sets are ordered by inclusion, and a derive would order their bits.
impl Kind for Channels {
    ghost ops = { set_ops };

    ghost laws = { set_laws };

    fn bottom() -> Channels {
        Channels::from(0)
    }

    fn one() -> Channels {
        Channels::from(0xffff)
    }

    fn top() -> Channels {
        Channels::from(0xffff)
    }

    fn join(self, other: Channels) -> Channels {
        Channels::from(self.bits | other.bits)
    }

    fn meet(self, other: Channels) -> Channels {
        Channels::from(self.bits & other.bits)
    }

    fn product(self, other: Channels) -> Channels {
        Channels::from(self.bits & other.bits)
    }

    fn residual(self, other: Channels) -> Channels {
        Channels::from((self.bits ^ 0xffff) | other.bits)
    }

    fn at_most(self, other: Channels) -> bool {
        self.bits | other.bits == other.bits
    }
}
