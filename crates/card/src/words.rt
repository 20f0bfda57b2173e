ghost use Rattle.std.specs.Prelude.{◌≡◌, ◌++◌, OnOk, string_bytes};
ghost use Rattle.card.specs.Reports.{kind_row, row, count_rows, link_rows, net_words};

use links::{Counts, Link, Sort, count_sort};
use numerals::Number;
use std::alloc::AllocError;
use texts::{Header, ValueKind};

// Not `ValueKind`'s Display: the words are this report's own.
fn kind_line(kind: ValueKind) -> &'static str
    ensures { result.now ≡ kind_row kind }
{
    match kind {
        ValueKind::Dates => "kind: dates\n",
        ValueKind::Levels => "kind: levels\n",
        ValueKind::Sets => "kind: sets\n",
    }
}

// Appends a row: a label and a number.
fn write_row(label: &str, n: usize, out: &mut String) -> Result<(), AllocError>
    ensures { OnOk result (string_bytes out.new ≡ string_bytes out.old ++ row label.now n) }
{
    writeln!(out, "{label}{}", Number::from(n))
}

fn write_counts(counts: Counts, out: &mut String) -> Result<(), AllocError>
    ensures { OnOk result (string_bytes out.new ≡ string_bytes out.old ++ count_rows counts) }
{
    write_row("transitions: ", usize::from(counts.transitions), out)?;
    write_row("inputs: ", usize::from(counts.inputs), out)?;
    write_row("outputs: ", usize::from(counts.outputs), out)
}

// Appends how many links of each sort there are.
fn write_tallies<T>(links: &[Link<T>], out: &mut String) -> Result<(), AllocError>
    ensures { OnOk result (string_bytes out.new ≡ string_bytes out.old ++ link_rows links.now) }
{
    write_row("places: ", count_sort(links, Sort::Place), out)?;
    write_row("input links: ", count_sort(links, Sort::Input), out)?;
    write_row("output links: ", count_sort(links, Sort::Output), out)
}

// Appends what a good net holds, in words.
pub(crate) fn write_words<T>(
    header: Header,
    links: &[Link<T>],
    out: &mut String,
) -> Result<(), AllocError>
    ensures { OnOk result (string_bytes out.new ≡ string_bytes out.old ++ net_words header links.now) }
{
    out.push_str(kind_line(header.kind))?;
    write_counts(header.counts, out)?;
    write_tallies(links, out)
}
