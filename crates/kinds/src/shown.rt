// How values print: `{}` writes what stands on a card.

ghost use Rattle.std.specs.Prelude.{Some};
ghost use Rattle.kinds.specs.Shown.{date_shown, level_shown, channels_shown};

use crate::{Channels, Date, Level};
use std::fmt;

impl fmt::Display for Date {
    ghost output = { λ d. Some (date_shown d) };

    fn fmt<W: fmt::Write>(&self, f: &mut fmt::Formatter<W>) -> fmt::Result {
        match *self {
            Date::Never => f.write_str("-"),
            Date::At(t) => write!(f, "{}", t.value()),
            Date::Open => f.write_str("*"),
        }
    }
}

impl fmt::Display for Level {
    ghost output = { λ x. Some (level_shown x) };

    fn fmt<W: fmt::Write>(&self, f: &mut fmt::Formatter<W>) -> fmt::Result {
        write!(f, "{}", self.value())
    }
}

impl fmt::Display for Channels {
    ghost output = { λ s. Some (channels_shown s) };

    #[tactic(auto, using(crate::proofs::Hex::hex_word))]
    fn fmt<W: fmt::Write>(&self, f: &mut fmt::Formatter<W>) -> fmt::Result {
        write!(f, "{:04x}", self.bits())
    }
}
