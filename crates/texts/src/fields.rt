ghost use Rattle.std.specs.Prelude.{◌≡◌, length};
ghost use Rattle.texts.specs.Splits.{fields};
ghost use Rattle.texts.specs.Fields.{field_at, letter_at, number_at, value_at};

use crate::faults::Wrong;
use kinds::Refusal;
use numerals::{CardKind, read_number};
use std::ops::Range;

// A field by its number, from 1; empty, where there is none.
fn field(line: &[u8], number: u8) -> &[u8]
    ensures { result.now ≡ field_at (fields line.now) number }
{
    let index = usize::from(number.saturating_sub(1));
    line.split(|b| *b == b',').nth(index).unwrap_or(&[])
}

// How many fields a line has.
pub(crate) fn field_count(line: &[u8]) -> usize
    ensures { result ≡ length (fields line.now) }
{
    line.split(|b| *b == b',').count()
}

// The one letter in a field.
pub(crate) fn letter_field(line: &[u8], number: u8, refusal: Refusal) -> Result<u8, Wrong>
    ensures { result ≡ letter_at (fields line.now) number refusal }
{
    match field(line, number) {
        [letter] => Ok(*letter),
        _ => Err(Wrong::new(refusal, number)),
    }
}

// The number in a field, if it lies in a range.
pub(crate) fn number_field(line: &[u8], number: u8, range: Range<u8>) -> Result<u8, Wrong>
    ensures { result ≡ number_at (fields line.now) number range.start range.end }
{
    let n = read_number(field(line, number)).ok_or(Wrong::new(Refusal::Spelling, number))?;
    match u8::try_from(n) {
        Ok(n) if range.contains(&n) => Ok(n),
        _ => Err(Wrong::new(Refusal::Range, number)),
    }
}

// The value in a field.
pub(crate) fn value_field<T: CardKind>(line: &[u8], number: u8) -> Result<T, Wrong>
    ensures { result ≡ value_at T.CardKind.reading (fields line.now) number }
{
    T::read(field(line, number)).map_err(|why| Wrong::new(Refusal::from(why), number))
}
