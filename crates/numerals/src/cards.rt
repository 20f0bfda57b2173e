ghost use Rattle.std.specs.Prelude.{◌≡◌, ℕ, List, Result};
ghost use Rattle.numerals.specs.declared.cards.Misread.{Misread};
ghost use Rattle.numerals.specs.Decimals.{number_of};
ghost use Rattle.numerals.specs.Texts.{ReadsBack, Shows, Ranged, refused, date_of, date_text, level_of, level_text, channels_of, channels_text};
ghost use Rattle.numerals.specs.Backs.{date_back, level_back, channels_back};
ghost use Rattle.numerals.specs.Shown.{NumbersShown, ByTenths, BitsShown, numbers_shown, by_tenths, bits_shown, date_shows, level_shows, channels_shows};

use crate::decimal::read_number;
use crate::hexadecimal::read_bits;
use kinds::{Channels, Date, Kind, Level, Refusal};
use std::fmt::Display;

// Why a field gives no value: it spells none, or one out of range.
#[derive(Clone, Copy, PartialEq, Eq, Debug)]
pub enum Misread {
    Spelling,
    Range,
}

impl From<Misread> for Refusal {
    ghost from_gives = { λ m r. r ≡ refused m };

    fn from(misread: Misread) -> Refusal {
        match misread {
            Misread::Spelling => Refusal::Spelling,
            Misread::Range => Refusal::Range,
        }
    }
}

// A value kind with its text.
pub trait CardKind: Kind + Display {
    // the bytes of a value
    ghost text: { Self → List ℕ };

    // what the bytes of a field say
    ghost reading: { List ℕ → Result Self Misread };

    fn read(field: &[u8]) -> Result<Self, Misread>
        ensures { result ≡ reading field.now };

    // `{}` writes the text
    ghost shown: { Shows Self.output text };

    // reading a written value returns it
    ghost back: { ReadsBack text reading };
}

// Reading a written value returns it, for every kind with a text.
pub fn reads_back<T: CardKind>()
    ensures { ReadsBack T.CardKind.text T.CardKind.reading }
{}

// What `{}` writes, for every kind with a text, for numbers and for sixteen bits.
#[tactic(auto, using(crate::specs::Shown::numbers_shown, crate::specs::Shown::by_tenths))]
pub fn shows_text<T: CardKind>()
    ensures value { Shows T.Display.output T.CardKind.text }
    ensures number { NumbersShown }
    ensures tenths { ByTenths }
    ensures bits { BitsShown }
{}

// The value of the number in a field, where it is in range.
fn read_ranged<T: TryFrom<u32, Error = Refusal>>(field: &[u8]) -> Result<T, Misread>
    ensures { Ranged T.try_from_gives (number_of field.now) result }
{
    let n = read_number(field).ok_or(Misread::Spelling)?;
    T::try_from(n).map_err(|_| Misread::Range)
}

impl CardKind for Date {
    ghost text = { date_text };

    ghost reading = { date_of };

    ghost shown = { date_shows };

    ghost back = { date_back };

    fn read(field: &[u8]) -> Result<Date, Misread> {
        match field {
            [b'-'] => Ok(Date::Never),
            [b'*'] => Ok(Date::Open),
            _ => Ok(Date::At(read_ranged(field)?)),
        }
    }
}

impl CardKind for Level {
    ghost text = { level_text };

    ghost reading = { level_of };

    ghost shown = { level_shows };

    ghost back = { level_back };

    fn read(field: &[u8]) -> Result<Level, Misread> {
        read_ranged(field)
    }
}

impl CardKind for Channels {
    ghost text = { channels_text };

    ghost reading = { channels_of };

    ghost shown = { channels_shows };

    ghost back = { channels_back };

    fn read(field: &[u8]) -> Result<Channels, Misread> {
        let bits = read_bits(field).ok_or(Misread::Spelling)?;
        Ok(Channels::from(bits))
    }
}
