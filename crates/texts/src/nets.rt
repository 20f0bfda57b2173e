ghost use Rattle.std.specs.Prelude.{◌≡◌, ◌≤◌, true, length, drop, ok_or, IfOk, OnSome};
ghost use Rattle.kinds.specs.declared.refusals.Refusal.TheVariants.{Spelling};
ghost use Rattle.texts.specs.declared.faults.TextName.TheVariants.{Net};
ghost use Rattle.texts.specs.Splits.{fields};
ghost use Rattle.texts.specs.Lines.{position_after, next_from, next_past};
ghost use Rattle.texts.specs.NetLines.{kind_by, sort_by, arity, from_bound, to_bound, tokens_at, link_of, net_line, kind_at, header_of, header_line};
ghost use Rattle.texts.specs.NetTexts.{header_from, fitting, links_from};

use crate::faults::{Fault, TextName, Wrong};
use crate::fields::{letter_field, number_field, value_field};
use crate::letters::{First, Letter, opening};
use crate::positions::Lines;
use kinds::Refusal;
use links::{Counts, Link, Sort};
use numerals::CardKind;

// The kinds of values that a net can have: D, L and S.
#[derive(Clone, Copy, PartialEq, Eq, Debug)]
pub enum ValueKind {
    Dates,
    Levels,
    Sets,
}

// What the first line of a net says.
#[derive(Clone, Copy, PartialEq, Eq, Debug)]
pub struct Header {
    pub kind: ValueKind,
    pub counts: Counts,
}

// The letters D, L and S.
impl TryFrom<u8> for ValueKind {
    type Error = Refusal;

    ghost try_from_gives = { λ b r. r ≡ ok_or (kind_by b) Spelling };

    fn try_from(letter: u8) -> Result<ValueKind, Refusal> {
        match char::from(letter) {
            'D' => Ok(ValueKind::Dates),
            'L' => Ok(ValueKind::Levels),
            'S' => Ok(ValueKind::Sets),
            _ => Err(Refusal::Spelling),
        }
    }
}

fn kind_field(line: &[u8]) -> Result<ValueKind, Wrong>
    ensures { result ≡ kind_at (fields line.now) }
{
    let letter = letter_field(line, 2, Refusal::Spelling)?;
    ValueKind::try_from(letter).map_err(|why| Wrong::new(why, 2))
}

// The header that the fields of a first line give.
fn read_header(line: &[u8]) -> Result<Header, Wrong>
    ensures { result ≡ header_of (fields line.now) }
{
    let kind = kind_field(line)?;
    let transitions = number_field(line, 3, 1..65)?;
    let inputs = number_field(line, 4, 1..17)?;
    let outputs = number_field(line, 5, 1..17)?;
    Ok(Header {
        kind,
        counts: Counts {
            transitions,
            inputs,
            outputs,
        },
    })
}

fn read_header_line(line: &[u8]) -> Result<Header, Wrong>
    ensures { result ≡ header_line line.now }
{
    opening::<First<b'N', 5>>(line)?;
    read_header(line)
}

impl Letter for Sort {
    ghost meant = { sort_by };

    ghost wanted = { arity };

    fn by_letter(letter: u8) -> Option<Sort> {
        match char::from(letter) {
            'P' => Some(Sort::Place),
            'I' => Some(Sort::Input),
            'O' => Some(Sort::Output),
            _ => None,
        }
    }

    fn field_count(&self) -> usize {
        usize::from(last_field(*self))
    }
}

// The number of the last field of a line of each sort.
fn last_field(sort: Sort) -> u8
    ensures { result ≡ arity sort }
{
    match sort {
        Sort::Place => 5,
        Sort::Input | Sort::Output => 4,
    }
}

fn from_limit(counts: Counts, sort: Sort) -> u8
    ensures { result ≡ from_bound counts sort }
{
    match sort {
        Sort::Place | Sort::Output => counts.transitions,
        Sort::Input => counts.inputs,
    }
}

fn to_limit(counts: Counts, sort: Sort) -> u8
    ensures { result ≡ to_bound counts sort }
{
    match sort {
        Sort::Place | Sort::Input => counts.transitions,
        Sort::Output => counts.outputs,
    }
}

fn read_tokens(line: &[u8], sort: Sort) -> Result<u8, Wrong>
    ensures { result ≡ tokens_at sort (fields line.now) }
{
    match sort {
        Sort::Place => number_field(line, 4, 0..16),
        Sort::Input | Sort::Output => Ok(0),
    }
}

// The link that the fields of a line give, from the left.
fn read_link<T: CardKind>(line: &[u8], counts: Counts, sort: Sort) -> Result<Link<T>, Wrong>
    ensures { result ≡ link_of T.CardKind.reading counts sort (fields line.now) }
{
    let from = number_field(line, 2, 0..from_limit(counts, sort))?;
    let to = number_field(line, 3, 0..to_limit(counts, sort))?;
    let tokens = read_tokens(line, sort)?;
    let value = value_field(line, last_field(sort))?;
    Ok(Link {
        sort,
        from,
        to,
        tokens,
        value,
    })
}

fn read_net_line<T: CardKind>(line: &[u8], counts: Counts) -> Result<Link<T>, Wrong>
    ensures { result ≡ net_line T.CardKind.reading counts line.now }
{
    let sort = opening(line)?;
    read_link(line, counts, sort)
}

// The link of a line, where the table has space for it.
fn read_fitting<T: CardKind>(line: &[u8], counts: Counts, space: bool) -> Result<Link<T>, Wrong>
    ensures { result ≡ fitting T.CardKind.reading counts space line.now }
{
    let link = read_net_line(line, counts)?;
    if space {
        Ok(link)
    } else {
        Err(Wrong::new(Refusal::Full, 0))
    }
}

// A reader of a net's text, from its first line on.
#[derive(Drop)]
pub struct NetReader<'a> {
    lines: Lines<'a>,
}

impl<'a> NetReader<'a> {
    // A reader at the beginning of a text.
    pub fn new(text: &'a [u8]) -> NetReader<'a>
        ensures { (result.lines.text.now ≡ text.now) × (result.lines.at ≡ record { place = 0; line = 0 }) }
    {
        NetReader {
            lines: Lines::new(text),
        }
    }
}

impl NetReader<'_> {
    // Reads the next line as the first line of a net.
    pub fn read_header(&mut self) -> Result<Header, Fault>
        ensures result { result ≡ header_from self.old.lines.text.now self.old.lines.at }
        ensures position { self.new.lines.at ≡ position_after result self.old.lines.at (drop self.old.lines.at.place self.old.lines.text.now) }
        ensures same { self.new.lines.text.now ≡ self.old.lines.text.now }
    {
        self.lines.take(TextName::Net, read_header_line)
    }

    // Reads the next line as a link, where the table has space for it; none at the
    // end of the text.
    fn next_link<T: CardKind>(
        &mut self,
        counts: Counts,
        space: bool,
    ) -> Result<Option<Link<T>>, Fault>
        ensures result { result ≡ next_from Net (fitting T.CardKind.reading counts space) self.old.lines.text.now self.old.lines.at }
        ensures space { IfOk result (λ o. OnSome o (space ≡ true)) }
        ensures position { self.new.lines.at ≡ next_past result self.old.lines.at (drop self.old.lines.at.place self.old.lines.text.now) }
        ensures same { self.new.lines.text.now ≡ self.old.lines.text.now }
    {
        self.lines
            .next(TextName::Net, |line| read_fitting(line, counts, space))
    }

    // Reads the rest of the text as links into the table, of which `count` stand
    // there. A refused line ends it, and leaves position, table and count as they
    // were before that line.
    // Kept: the table is lent, with its count beside it, since no heap is used here.
    pub fn read_links<T: CardKind>(
        &mut self,
        counts: Counts,
        table: &mut [Link<T>],
        count: &mut usize,
    ) -> Result<(), Fault>
        ensures after { links_from T.CardKind.reading counts self.old.lines.text.now self.old.lines.at table.old count.old ≡ record { answer = result; at = self.new.lines.at; table = table.new; count = count.new } }
        ensures within { count.old ≤ length table.old → count.new ≤ length table.old }
        ensures same { self.new.lines.text.now ≡ self.old.lines.text.now }
    {
        let size = table.len().min(320);
        while let Some(link) = self.next_link(counts, *count < size)? {
            prove!(*count < table.len());
            table[*count] = link;
            *count += 1;
        }
        Ok(())
    }
}
