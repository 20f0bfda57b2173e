ghost use Rattle.std.specs.Prelude.{IfOk};
ghost use Rattle.printing.specs.Reads.{Reads};

use numerals::CardKind;
use std::alloc::{AllocError, Global};
use texts::{Fault, ScoreLine, ScoreReader};

// The lines of a score, and how its text ends.
#[derive(Drop)]
pub(crate) struct Heard<T> {
    pub(crate) lines: Vec<ScoreLine<T>>,
    pub(crate) end: Result<(), Fault>,
}

// Reads the lines that are left of a score, up to its end or its first fault.
pub(crate) fn read_lines<T: CardKind>(
    heap: Global,
    mut score: ScoreReader<'_>,
) -> Result<Heard<T>, AllocError>
    ensures { IfOk result (λ h. Reads T.CardKind.reading score.entry.lines.text.now score.entry.lines.at h.lines.items h.end) }
{
    let mut lines = Vec::new(heap);
    loop {
        match score.next_line() {
            Ok(Some(line)) => lines.push(line)?,
            Ok(None) => return Ok(Heard { lines, end: Ok(()) }),
            Err(fault) => {
                return Ok(Heard {
                    lines,
                    end: Err(fault),
                });
            }
        }
    }
}
