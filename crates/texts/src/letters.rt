ghost use Rattle.std.specs.Prelude.{◌≡◌, ◌==◌, ℕ, cond, Some, None, Option};
ghost use Rattle.texts.specs.Splits.{fields};
ghost use Rattle.texts.specs.Letters.{opened};

use crate::faults::Wrong;
use crate::fields::{field_count, letter_field};
use kinds::Refusal;

// What the letter that a line begins with can stand for.
// A trait and no `TryFrom<u8>`: `Sort` is a type of another crate, and one function opens the
// lines of all that it is written for.
pub(crate) trait Letter: Sized + Drop {
    ghost meant: { ℕ → Option Self };

    ghost wanted: { Self → ℕ };

    fn by_letter(letter: u8) -> Option<Self>
        ensures { result ≡ meant letter };

    // How many fields the line then has.
    fn field_count(&self) -> usize
        ensures { result ≡ wanted self.now };
}

// The one letter of a first line, of so many fields.
#[derive(Drop)]
pub(crate) struct First<const LETTER: u8, const COUNT: usize>;

impl<const LETTER: u8, const COUNT: usize> Letter for First<LETTER, COUNT> {
    ghost meant = { λ b. cond (b == LETTER) (Some (record {})) None };

    ghost wanted = { λ _. COUNT };

    fn by_letter(letter: u8) -> Option<First<LETTER, COUNT>> {
        (letter == LETTER).then_some(First)
    }

    fn field_count(&self) -> usize {
        COUNT
    }
}

// What a line begins with: its letter, then the number of its fields.
pub(crate) fn opening<O: Letter>(line: &[u8]) -> Result<O, Wrong>
    ensures { result ≡ opened O.meant O.wanted (fields line.now) }
{
    let letter = letter_field(line, 1, Refusal::Shape)?;
    let found = O::by_letter(letter).ok_or(Wrong::new(Refusal::Shape, 1))?;
    if field_count(line) != found.field_count() {
        return Err(Wrong::new(Refusal::Shape, 0));
    }
    Ok(found)
}
