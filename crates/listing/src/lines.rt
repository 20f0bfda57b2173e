ghost use Rattle.std.specs.Prelude.{◌≡◌, Some, [], ◌∷◌};
ghost use Rattle.listing.specs.CardLines.{event_letter, block_letter, answer_code, card_line};

use kinds::Refusal;
use numerals::{CardKind, Number};
use std::fmt;
use texts::Fault;

// What the player did: a due, an order, a firing or a miss.
#[derive(Clone, Copy)]
pub enum Event {
    Due,
    Order,
    Fire,
    Miss,
}

// A block of cells that is printed: the plan or the strikes.
#[derive(Clone, Copy)]
pub enum Block {
    Plan,
    Strikes,
}

// A beat and the value there.
#[derive(Clone, Copy)]
pub struct Spot<T> {
    pub beat: usize,
    pub value: T,
}

// A line of the printed card.
#[derive(Clone, Copy)]
pub enum CardLine<T> {
    Answered {
        event: Event,
        wire: usize,
        spot: Option<Spot<T>>,
        answer: Result<(), Refusal>,
    },
    Cell {
        block: Block,
        wire: usize,
        beat: usize,
        value: T,
    },
    Refused(Fault),
}

impl fmt::Display for Event {
    ghost output = { λ e. Some (event_letter e ∷ []) };

    fn fmt<W: fmt::Write>(&self, f: &mut fmt::Formatter<W>) -> fmt::Result {
        f.write_str(match self {
            Event::Due => "D",
            Event::Order => "A",
            Event::Fire => "F",
            Event::Miss => "M",
        })
    }
}

impl fmt::Display for Block {
    ghost output = { λ b. Some (block_letter b ∷ []) };

    fn fmt<W: fmt::Write>(&self, f: &mut fmt::Formatter<W>) -> fmt::Result {
        f.write_str(match self {
            Block::Plan => "U",
            Block::Strikes => "Y",
        })
    }
}

// The number of an answer: 0, or that of the refusal.
// No From: both types are of other crates, so none can stand here.
fn answer_number(answer: Result<(), Refusal>) -> u8
    ensures { result ≡ answer_code answer }
{
    match answer {
        Ok(()) => 0,
        Err(refusal) => refusal.into(),
    }
}

impl<T: CardKind> fmt::Display for CardLine<T> {
    ghost output = { λ line. Some (card_line T.CardKind.text line) };

    // The line, without the byte that ends it.
    fn fmt<W: fmt::Write>(&self, f: &mut fmt::Formatter<W>) -> fmt::Result {
        match *self {
            CardLine::Answered {
                event,
                wire,
                spot,
                answer,
            } => {
                let wire = Number::from(wire);
                let code = Number::from(answer_number(answer));
                match spot {
                    Some(Spot { beat, value }) => {
                        write!(f, "{event},{wire},{},{value},{code}", Number::from(beat))
                    }
                    None => write!(f, "{event},{wire},-,-,{code}"),
                }
            }
            CardLine::Cell {
                block,
                wire,
                beat,
                value,
            } => {
                let wire = Number::from(wire);
                write!(f, "{block},{wire},{},{value}", Number::from(beat))
            }
            CardLine::Refused(fault) => write!(f, "{fault}"),
        }
    }
}
