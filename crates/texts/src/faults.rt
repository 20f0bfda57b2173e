ghost use Rattle.std.specs.Prelude.{◌≡◌, Some, [], ◌∷◌};
ghost use Rattle.texts.specs.Faults.{name_of, fault_at};
ghost use Rattle.texts.specs.FaultLines.{fault_text};

use kinds::Refusal;
use numerals::Number;
use std::fmt;

// Which of the two texts a fault is in.
#[derive(Clone, Copy, PartialEq, Eq, Debug)]
pub enum TextName {
    Net,
    Score,
}

// A refused text: why, in which text, its line from 1 (0 for the whole text)
// and its field from 1 (0 for the whole line).
// Kept: 0 is what the printed line and the rules have there; an Option would be turned into
// it in every definition and line.
#[derive(Clone, Copy, PartialEq, Eq, Debug)]
pub struct Fault {
    pub refusal: Refusal,
    pub text: TextName,
    pub line: usize,
    pub field: u8,
}

// A refused line: why, and the field from 1, or 0 for the whole line, as in a fault.
#[derive(Clone, Copy, PartialEq, Eq, Debug)]
pub(crate) struct Wrong {
    pub(crate) refusal: Refusal,
    pub(crate) field: u8,
}

// The letter of a text in a printed fault.
impl From<TextName> for u8 {
    ghost from_gives = { λ t n. n ≡ name_of t };

    fn from(text: TextName) -> u8 {
        match text {
            TextName::Net => b'N',
            TextName::Score => b'S',
        }
    }
}

impl fmt::Display for TextName {
    ghost output = { λ t. Some (name_of t ∷ []) };

    fn fmt<W: fmt::Write>(&self, f: &mut fmt::Formatter<W>) -> fmt::Result {
        write!(f, "{}", char::from(u8::from(*self)))
    }
}

// The printed line of a fault, without its end: `R,text,line,field,number`.
impl fmt::Display for Fault {
    ghost output = { λ f. Some (fault_text f) };

    fn fmt<W: fmt::Write>(&self, f: &mut fmt::Formatter<W>) -> fmt::Result {
        let text = self.text;
        let line = Number::from(self.line);
        let field = Number::from(self.field);
        let number = Number::from(u8::from(self.refusal));
        write!(f, "R,{text},{line},{field},{number}")
    }
}

impl Wrong {
    pub(crate) fn new(refusal: Refusal, field: u8) -> Wrong
        ensures { result ≡ record { refusal = refusal; field = field } }
    {
        Wrong { refusal, field }
    }

    // The fault that this makes of a line of a text.
    pub(crate) fn in_line(self, text: TextName, line: usize) -> Fault
        ensures { result ≡ fault_at text line self }
    {
        Fault {
            refusal: self.refusal,
            text,
            line,
            field: self.field,
        }
    }
}
