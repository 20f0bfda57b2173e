ghost use Rattle.std.specs.Prelude.{◌≡◌, ◌≤◌, ◌++◌, length, IfOk, OnOk, string_bytes};
ghost use Rattle.nets.specs.Nets.{meant, net_need};
ghost use Rattle.phrases.specs.Cells.{plan, total};
ghost use Rattle.phrases.specs.Steps.{Left};
ghost use Rattle.runs.specs.History.{playing};
ghost use Rattle.printing.specs.Plays.{begun};
ghost use Rattle.printing.specs.Performs.{block_rows, closing, Performed};
ghost use Rattle.printing.specs.Sides.{AreSides};

use crate::play::play_lines;
use crate::rows::{write_acts, write_block};
use crate::scores::Heard;
use listing::Block;
use nets::Net;
use numerals::CardKind;
use phrases::{Playing, write};
use plants::{Horizon, Plant};
use std::alloc::{AllocError, Global};
use texts::Fault;

// The sides of a phrase's net, and its beats: where its blocks lie a phrase keeps to itself.
#[derive(Clone, Copy)]
struct Sides {
    inputs: usize,
    outputs: usize,
    k: Horizon,
}

// Appends the plan, and the strikes that it drives.
fn write_blocks<T: CardKind>(
    phrase: &Playing<Net<'_, T>>,
    sides: Sides,
    sheet: &mut [T],
    out: &mut String,
) -> Result<(), AllocError>
    requires sides { AreSides phrase.now.phrase sides }
    requires room { total (meant T.Kind.ops phrase.now.phrase.plant) sides.k.beats (net_need phrase.now.phrase.plant sides.k.beats) ≤ length sheet.old }
    ensures { OnOk result (string_bytes out.new ≡ string_bytes out.old ++ block_rows T.Kind.ops T.CardKind.text (meant T.Kind.ops phrase.now.phrase.plant) sides.k.beats (plan T.Kind.ops (meant T.Kind.ops phrase.now.phrase.plant) sides.k.beats sheet.old)) }
{
    let k = sides.k;
    let read = sides.inputs * k.beats();
    let written = sides.outputs * k.beats();
    let strikes = written + read;
    write_block(Block::Plan, k, &sheet[written..strikes], out)?;
    // The sheet has all the cells, so the call is not refused.
    let _ = phrase.strikes(sheet);
    write_block(Block::Strikes, k, &sheet[strikes..strikes + written], out)
}

// Appends what follows the events: plan and strikes at the end of the text, or its fault.
fn write_end<T: CardKind>(
    end: Result<(), Fault>,
    phrase: &Playing<Net<'_, T>>,
    sides: Sides,
    sheet: &mut [T],
    out: &mut String,
) -> Result<(), AllocError>
    requires sides { AreSides phrase.now.phrase sides }
    requires room { total (meant T.Kind.ops phrase.now.phrase.plant) sides.k.beats (net_need phrase.now.phrase.plant sides.k.beats) ≤ length sheet.old }
    ensures { OnOk result (string_bytes out.new ≡ string_bytes out.old ++ closing T.Kind.ops T.CardKind.text (meant T.Kind.ops phrase.now.phrase.plant) sides.k.beats end (plan T.Kind.ops (meant T.Kind.ops phrase.now.phrase.plant) sides.k.beats sheet.old)) }
{
    match end {
        Ok(()) => write_blocks(phrase, sides, sheet, out),
        Err(fault) => writeln!(out, "{fault}"),
    }
}

// A phrase over a net, laid and started.
fn begin<'a, T: CardKind>(net: Net<'a, T>, k: Horizon, sheet: &mut [T]) -> Playing<Net<'a, T>>
    requires { total (meant T.Kind.ops net) k.beats (net_need net k.beats) ≤ length sheet.old }
    ensures same { (result.phrase.plant ≡ net.entry) × (result.phrase.horizon ≡ k) }
    ensures law { Left T.Kind.ops (meant T.Kind.ops net.entry) k.beats (net_need net.entry k.beats) playing begun result.phrase.lanes.table sheet.new }
{
    let written = write(net, k);
    // The sheet has all the cells, so the call is not refused.
    let _ = written.lay(sheet);
    written.start()
}

// The card of the lines of a score, on a phrase over a net.
pub(crate) fn card_on<T: CardKind>(
    heap: Global,
    net: Net<'_, T>,
    k: Horizon,
    sheet: &mut [T],
    heard: &Heard<T>,
) -> Result<Vec<u8>, AllocError>
    requires { total (meant T.Kind.ops net) k.beats (net_need net k.beats) ≤ length sheet.old }
    ensures { IfOk result (λ v. Performed T.Kind.ops T.CardKind.text (meant T.Kind.ops net.entry) k.beats heard.now.lines.items heard.now.end v.items) }
{
    let sides = Sides {
        inputs: net.inputs(),
        outputs: net.outputs(),
        k,
    };
    let mut phrase = begin(net, k, sheet);
    let acts = play_lines(heap, &mut phrase, sheet, heard.lines.as_slice())?;
    let mut out = String::new(heap);
    write_acts(acts.as_slice(), &mut out)?;
    write_end(heard.end, &phrase, sides, sheet, &mut out)?;
    Ok(out.into_bytes())
}
