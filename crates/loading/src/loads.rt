ghost use Rattle.std.specs.Prelude.{◌≡◌};
ghost use Rattle.loading.specs.Copies.{copies};
ghost use Rattle.loading.specs.Loads.{blank, OnText, Checked, ReadAs, ByKind, Loaded};

use crate::checked_nets::{AnyNet, CheckedNet};
use crate::checks::passes;
use crate::copies::copies_of;
use crate::errors::LoadError;
use kinds::{Kind, Refusal};
use links::{Counts, Link, Sort};
use numerals::CardKind;
use std::alloc::Global;
use texts::{Fault, Header, NetReader, TextName, ValueKind};

// A link to fill a table with: the reader of links writes over a table that it is lent.
fn blank_link<T: Kind>() -> Link<T>
    ensures { result ≡ blank T.Kind.ops }
{
    Link {
        sort: Sort::Place,
        from: 0,
        to: 0,
        tokens: 0,
        value: T::bottom(),
    }
}

// The net of these links, unless a circuit cannot settle.
fn checked<T: Kind>(
    heap: Global,
    counts: Counts,
    links: Vec<Link<T>>,
) -> Result<CheckedNet<T>, LoadError>
    ensures { OnText result (λ a. Checked T.Kind.ops counts links.items a) }
{
    if passes(heap, counts, links.as_slice())? {
        return Ok(CheckedNet { counts, links });
    }
    Err(LoadError::Faulty(Fault {
        refusal: Refusal::Circuit,
        text: TextName::Net,
        line: 0,
        field: 0,
    }))
}

// Reads the links of a net as values of one kind.
fn load_as<T: CardKind>(
    heap: Global,
    mut reader: NetReader<'_>,
    counts: Counts,
) -> Result<CheckedNet<T>, LoadError>
    ensures { OnText result (λ a. ReadAs T.Kind.ops T.CardKind.reading counts reader.entry.lines.text.now reader.entry.lines.at (copies 320 (blank T.Kind.ops)) a) }
{
    let mut links = copies_of(heap, 320, blank_link::<T>())?;
    let mut count = 0;
    reader.read_links(counts, links.as_mut_slice(), &mut count)?;
    links.truncate(count);
    checked(heap, counts, links)
}

// Reads the links of a net as values of the kind that its header names.
fn load_kind(heap: Global, reader: NetReader<'_>, header: Header) -> Result<AnyNet, LoadError>
    ensures { OnText result (λ a. ByKind header.kind header.counts reader.entry.lines.text.now reader.entry.lines.at a) }
{
    match header.kind {
        ValueKind::Dates => Ok(AnyNet::Dates(load_as(heap, reader, header.counts)?)),
        ValueKind::Levels => Ok(AnyNet::Levels(load_as(heap, reader, header.counts)?)),
        ValueKind::Sets => Ok(AnyNet::Sets(load_as(heap, reader, header.counts)?)),
    }
}

// Reads and checks a net's text: the net, or its fault; a circuit is a fault of
// the whole text.
pub fn load(heap: Global, net: &[u8]) -> Result<AnyNet, LoadError>
    ensures { OnText result (λ a. Loaded net.now a) }
{
    let mut reader = NetReader::new(net);
    let header = reader.read_header()?;
    load_kind(heap, reader, header)
}
