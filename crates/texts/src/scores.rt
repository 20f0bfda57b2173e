ghost use Rattle.std.specs.Prelude.{◌≡◌, drop};
ghost use Rattle.texts.specs.Splits.{fields};
ghost use Rattle.texts.specs.Lines.{position_after};
ghost use Rattle.texts.specs.Scores.{verb_by, verb_arity, said, score_line, beats_line, beats_from, event_from, event_past};

use crate::faults::{Fault, TextName, Wrong};
use crate::fields::{number_field, value_field};
use crate::letters::{First, Letter, opening};
use crate::positions::Lines;
use numerals::CardKind;

// What the letter of a score's line asks for.
#[derive(Clone, Copy, PartialEq, Eq, Debug)]
enum Verb {
    Due,
    Fire,
    Miss,
}

// A line of a score after its first: a due, or an order that is fired or missed.
#[derive(Clone, Copy, PartialEq, Eq, Debug)]
pub enum ScoreLine<T> {
    Due { output: u8, beat: u8, value: T },
    Fire { input: u8, value: T },
    Miss { input: u8 },
}

impl Letter for Verb {
    ghost meant = { verb_by };

    ghost wanted = { verb_arity };

    fn by_letter(letter: u8) -> Option<Verb> {
        match char::from(letter) {
            'D' => Some(Verb::Due),
            'F' => Some(Verb::Fire),
            'X' => Some(Verb::Miss),
            _ => None,
        }
    }

    fn field_count(&self) -> usize {
        match self {
            Verb::Due => 4,
            Verb::Fire => 3,
            Verb::Miss => 2,
        }
    }
}

// What the fields of a line say, from the left.
fn read_event<T: CardKind>(line: &[u8], verb: Verb) -> Result<ScoreLine<T>, Wrong>
    ensures { result ≡ said T.CardKind.reading verb (fields line.now) }
{
    let wire = number_field(line, 2, 0..16)?;
    match verb {
        Verb::Due => {
            let beat = number_field(line, 3, 0..64)?;
            let value = value_field(line, 4)?;
            Ok(ScoreLine::Due {
                output: wire,
                beat,
                value,
            })
        }
        Verb::Fire => {
            let value = value_field(line, 3)?;
            Ok(ScoreLine::Fire { input: wire, value })
        }
        Verb::Miss => Ok(ScoreLine::Miss { input: wire }),
    }
}

fn read_score_line<T: CardKind>(line: &[u8]) -> Result<ScoreLine<T>, Wrong>
    ensures { result ≡ score_line T.CardKind.reading line.now }
{
    let verb = opening(line)?;
    read_event(line, verb)
}

fn read_beats_line(line: &[u8]) -> Result<u8, Wrong>
    ensures { result ≡ beats_line line.now }
{
    opening::<First<b'H', 2>>(line)?;
    number_field(line, 2, 1..65)
}

// A reader of a score's text, from its first line on.
#[derive(Drop)]
pub struct ScoreReader<'a> {
    lines: Lines<'a>,
}

impl<'a> ScoreReader<'a> {
    // A reader at the beginning of a text.
    pub fn new(text: &'a [u8]) -> ScoreReader<'a>
        ensures { (result.lines.text.now ≡ text.now) × (result.lines.at ≡ record { place = 0; line = 0 }) }
    {
        ScoreReader {
            lines: Lines::new(text),
        }
    }
}

impl ScoreReader<'_> {
    // Reads the next line as the first line of a score, and answers its beats.
    pub fn read_beats(&mut self) -> Result<u8, Fault>
        ensures result { result ≡ beats_from self.old.lines.text.now self.old.lines.at }
        ensures position { self.new.lines.at ≡ position_after result self.old.lines.at (drop self.old.lines.at.place self.old.lines.text.now) }
        ensures same { self.new.lines.text.now ≡ self.old.lines.text.now }
    {
        self.lines.take(TextName::Score, read_beats_line)
    }

    // Reads the next line; none at the end of the text.
    pub fn next_line<T: CardKind>(&mut self) -> Result<Option<ScoreLine<T>>, Fault>
        ensures result { result ≡ event_from T.CardKind.reading self.old.lines.text.now self.old.lines.at }
        ensures position { self.new.lines.at ≡ event_past result self.old.lines.at (drop self.old.lines.at.place self.old.lines.text.now) }
        ensures same { self.new.lines.text.now ≡ self.old.lines.text.now }
    {
        self.lines
            .next(TextName::Score, |line| read_score_line(line))
    }
}
