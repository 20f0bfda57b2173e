ghost use Rattle.std.specs.Prelude.{◌≡◌, ◌==◌, ◌≤◌, ℕ, List, length, drop, position, Ok, Err, Result, MatchResult};
ghost use Rattle.texts.specs.declared.faults.Wrong.{Wrong};
ghost use Rattle.texts.specs.Faults.{then, faulted};
ghost use Rattle.texts.specs.Lines.{within, line_of, past, position_after, Computes, line_from, next_from, next_past};

use crate::faults::{Fault, TextName, Wrong};
use kinds::Refusal;

// Where a reader stands: how many bytes and how many lines are behind it.
#[derive(Clone, Copy, PartialEq, Eq, Debug)]
pub struct Position {
    pub place: usize,
    pub line: usize,
}

// Puts a position back to where it stood, unless it is accepted. A guard and no copy written
// back at the end: however a reading call returns, a refused line leaves the position.
struct Guard<'p> {
    at: &'p mut Position,
    start: Position,
}

impl Drop for Guard<'_> {
    fn drop(self)
        ensures { self.exit.0.now ≡ self.entry.start }
    {
        *self.at = self.start;
        let Guard { at: _, start: _ } = self;
    }
}

impl Guard<'_> {
    // Lets the position stay where it is now.
    fn accept(self)
        ensures { self.exit.0.now ≡ self.entry.at.now }
    {
        let Guard { at: _, start: _ } = self;
    }
}

// Refuses a text of more than 16,384 bytes.
fn check_length(text: &[u8], name: TextName) -> Result<(), Fault>
    ensures { result ≡ within name text.now }
{
    if text.len() <= 16_384 {
        Ok(())
    } else {
        Err(Wrong::new(Refusal::Full, 0).in_line(name, 0))
    }
}

// Where the first line of what is left of a text ends.
fn line_end(rest: &[u8]) -> Option<usize>
    ensures { result ≡ position (λ b. b == 10) rest.now }
{
    rest.iter().position(|b| *b == b'\n')
}

// The line at the beginning of what is left of a text, without its end.
fn first_line(rest: &[u8]) -> Result<&[u8], Wrong>
    ensures { MatchResult result (λ l. line_of rest.now ≡ Ok l.now) (λ w. line_of rest.now ≡ Err w) }
{
    let n = line_end(rest).ok_or(Wrong::new(Refusal::Shape, 0))?;
    if n == 0 || n > 64 {
        return Err(Wrong::new(Refusal::Shape, 0));
    }
    Ok(&rest[..n])
}

// Takes the next line, without its end, and moves the position past it.
fn take_line<'a>(text: &'a [u8], at: &mut Position) -> Result<&'a [u8], Wrong>
    requires lines { at.old.line ≤ at.old.place }
    requires inside { at.old.place ≤ length text.now }
    ensures line { MatchResult result (λ l. line_of (drop at.old.place text.now) ≡ Ok l.now) (λ w. line_of (drop at.old.place text.now) ≡ Err w) }
    ensures inside { at.new.place ≤ length text.now }
    ensures moved { MatchResult result (λ l. at.new ≡ past at.old (drop at.old.place text.now)) (λ w. at.new ≡ at.old) }
{
    let line = first_line(&text[at.place..])?;
    at.place += line.len() + 1;
    at.line += 1;
    Ok(line)
}

// A text, and how far it is read.
#[derive(Drop)]
pub(crate) struct Lines<'a> {
    pub(crate) text: &'a [u8],
    pub(crate) at: Position,
    ghost ok: { (at.line ≤ at.place) × (at.place ≤ length text.now) },
}

impl<'a> Lines<'a> {
    // The lines of a text, from its beginning.
    pub(crate) fn new(text: &'a [u8]) -> Lines<'a>
        ensures { (result.text.now ≡ text.now) × (result.at ≡ record { place = 0; line = 0 }) }
    {
        Lines {
            text,
            at: Position { place: 0, line: 0 },
        }
    }
}

impl Lines<'_> {
    // What the next line says; a refused one is not passed.
    fn read<A, F: FnOnce(&[u8]) -> Result<A, Wrong>>(&mut self, parse: F) -> Result<A, Wrong>
        requires { F.IsAlwaysCallable parse }
        ensures result { (says : List ℕ → Result A Wrong) → Computes F.FnOnce parse says → result ≡ then (line_of (drop self.old.at.place self.old.text.now)) says }
        ensures position { self.new.at ≡ position_after result self.old.at (drop self.old.at.place self.old.text.now) }
        ensures same { self.new.text.now ≡ self.old.text.now }
    {
        let start = self.at;
        let guard = Guard {
            at: &mut self.at,
            start,
        };
        let line = take_line(self.text, guard.at)?;
        let found = parse(line)?;
        guard.accept();
        Ok(found)
    }

    // The same, with the fault of a refused line or of a text that is too long.
    pub(crate) fn take<A, F: FnOnce(&[u8]) -> Result<A, Wrong>>(
        &mut self,
        name: TextName,
        parse: F,
    ) -> Result<A, Fault>
        requires { F.IsAlwaysCallable parse }
        ensures result { (says : List ℕ → Result A Wrong) → Computes F.FnOnce parse says → result ≡ line_from name says self.old.text.now self.old.at }
        ensures position { self.new.at ≡ position_after result self.old.at (drop self.old.at.place self.old.text.now) }
        ensures same { self.new.text.now ≡ self.old.text.now }
    {
        check_length(self.text, name)?;
        let line = self.at.line + 1;
        self.read(parse).map_err(|wrong| wrong.in_line(name, line))
    }

    // The same, with none at the end of the text.
    pub(crate) fn next<A, F: FnOnce(&[u8]) -> Result<A, Wrong>>(
        &mut self,
        name: TextName,
        parse: F,
    ) -> Result<Option<A>, Fault>
        requires { F.IsAlwaysCallable parse }
        ensures result { (says : List ℕ → Result A Wrong) → Computes F.FnOnce parse says → result ≡ next_from name says self.old.text.now self.old.at }
        ensures position { self.new.at ≡ next_past result self.old.at (drop self.old.at.place self.old.text.now) }
        ensures same { self.new.text.now ≡ self.old.text.now }
    {
        check_length(self.text, name)?;
        if self.at.place >= self.text.len() {
            return Ok(None);
        }
        let found = self.take(name, parse)?;
        Ok(Some(found))
    }
}
