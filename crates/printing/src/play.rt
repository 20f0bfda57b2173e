ghost use Rattle.std.specs.Prelude.{◌≡◌, ◌++◌, IfOk, OnOk};
ghost use Rattle.phrases.specs.Events.{acts, Follows};
ghost use Rattle.phrases.specs.Promises.{Law, Stays};
ghost use Rattle.runs.specs.History.{playing};
ghost use Rattle.runs.specs.declared.acts.Call.TheVariants.{Due as due};
ghost use Rattle.printing.specs.Plays.{ComesTo, Plays};

use kinds::Kind;
use phrases::{Happened, Playing};
use plants::Plant;
use runs::{Act, Call};
use std::alloc::{AllocError, Global};
use texts::ScoreLine;

// Changes a due, and tells the call with its answer.
fn play_due<P: Plant>(
    phrase: &Playing<P>,
    sheet: &mut [P::Value],
    output: usize,
    beat: usize,
    value: P::Value,
) -> Act<P::Value>
    ensures law { Law P.Value.Kind.ops P.Plant.meaning P.Plant.need playing playing phrase.now.phrase phrase.now.phrase result sheet.old sheet.new }
    ensures call { result.call ≡ due output beat value }
{
    let answer = phrase.due(sheet, output, beat, value).into();
    Act {
        call: Call::Due {
            output,
            beat,
            value,
        },
        answer,
    }
}

// Plays one line of a score, and tells the calls that it comes to.
fn play_line<P: Plant>(
    phrase: &mut Playing<P>,
    sheet: &mut [P::Value],
    line: ScoreLine<P::Value>,
) -> Happened<P::Value>
    ensures calls { ComesTo line (acts result) }
    ensures same { Stays phrase.old.phrase phrase.new.phrase }
    ensures law { Follows P.Value.Kind.ops P.Plant.meaning P.Plant.need phrase.old.phrase phrase.new.phrase (acts result) sheet.old sheet.new }
{
    match line {
        ScoreLine::Due {
            output,
            beat,
            value,
        } => Happened::One(play_due(phrase, sheet, usize::from(output), usize::from(beat), value)),
        ScoreLine::Fire { input, value } => phrase.fire_next(sheet, usize::from(input), value),
        ScoreLine::Miss { input } => phrase.miss_next(sheet, usize::from(input)),
    }
}

// Appends the calls of an event.
fn note<T: Copy>(list: &mut Vec<Act<T>>, event: Happened<T>) -> Result<(), AllocError>
    ensures { OnOk result (list.new.items ≡ list.old.items ++ acts event) }
{
    match event {
        Happened::One(a) => list.push(a)?,
        Happened::Two(a, b) => {
            list.push(a)?;
            list.push(b)?;
        }
        Happened::Three(a, b, c) => {
            list.push(a)?;
            list.push(b)?;
            list.push(c)?;
        }
    }
    Ok(())
}

// Plays the lines of a score one after the other, and tells the calls that they come to.
pub(crate) fn play_lines<P: Plant>(
    heap: Global,
    phrase: &mut Playing<P>,
    sheet: &mut [P::Value],
    lines: &[ScoreLine<P::Value>],
) -> Result<Vec<Act<P::Value>>, AllocError>
    ensures same { Stays phrase.old.phrase phrase.new.phrase }
    ensures calls { IfOk result (λ v. Plays lines.now v.items) }
    ensures law { IfOk result (λ v. Follows P.Value.Kind.ops P.Plant.meaning P.Plant.need phrase.old.phrase phrase.new.phrase v.items sheet.old sheet.new) }
{
    let mut list = Vec::new(heap);
    for line in lines {
        let event = play_line(phrase, sheet, *line);
        note(&mut list, event)?;
    }
    Ok(list)
}
