ghost use Rattle.std.specs.Prelude.{◌≡◌, ◌^◌, ◌<◌, Some};
ghost use Rattle.numerals.specs.Decimals.{text_of};

use std::fmt;

// A plain number as it is printed. Its bound stands with it, as no clause knows that of
// a number in another's field, and what `{}` writes is the number's text only below it.
#[derive(Clone, Copy, PartialEq, Eq, Debug)]
pub struct Number {
    value: u64,
    ghost small: { value < 2 ^ 64 },
}

impl From<u64> for Number {
    ghost from_gives = { λ n x. x.value ≡ n };

    fn from(value: u64) -> Number {
        Number { value }
    }
}

impl From<u32> for Number {
    ghost from_gives = { λ n x. x.value ≡ n };

    fn from(value: u32) -> Number {
        Number::from(u64::from(value))
    }
}

impl From<u8> for Number {
    ghost from_gives = { λ n x. x.value ≡ n };

    fn from(value: u8) -> Number {
        Number::from(u32::from(value))
    }
}

impl From<usize> for Number {
    ghost from_gives = { λ n x. x.value ≡ n };

    // By `as`, which widens nothing here: no From stands between the two.
    fn from(value: usize) -> Number {
        Number::from(value as u64)
    }
}

impl fmt::Display for Number {
    ghost output = { λ x. Some (text_of x.value) };

    #[tactic(auto, using(crate::specs::Shown::numbers_shown))]
    fn fmt<W: fmt::Write>(&self, f: &mut fmt::Formatter<W>) -> fmt::Result {
        write!(f, "{}", self.value)
    }
}
