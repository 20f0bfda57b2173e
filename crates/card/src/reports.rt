ghost use Rattle.std.specs.Prelude.{◌≡◌, IfOk};
ghost use Rattle.card.specs.Reports.{Held, Reported};

use crate::responses::write_responses;
use crate::words::write_words;
use listing::refused;
use loading::{AnyNet, CheckedNet, LoadError, load};
use numerals::CardKind;
use std::alloc::{AllocError, Global};
use texts::{Header, ValueKind};

// What a net that was read holds, and how it responds.
fn describe<T: CardKind>(
    heap: Global,
    kind: ValueKind,
    net: &CheckedNet<T>,
) -> Result<Vec<u8>, AllocError>
    ensures { IfOk result (λ v. Held T.Kind.ops T.CardKind.text (record { kind = kind; counts = net.now.counts }) net.now.links.items v.items) }
{
    let mut out = String::new(heap);
    let header = Header {
        kind,
        counts: net.counts,
    };
    write_words(header, net.links.as_slice(), &mut out)?;
    write_responses(heap, net, &mut out)?;
    Ok(out.into_bytes())
}

// What is told of a net's text: the line of its fault, or what the net holds and how it
// responds, in words.
pub fn report(heap: Global, net: &[u8]) -> Result<Vec<u8>, AllocError>
    ensures { IfOk result (λ v. Reported net.now v.items) }
{
    match load(heap, net) {
        Ok(AnyNet::Dates(net)) => describe(heap, ValueKind::Dates, &net),
        Ok(AnyNet::Levels(net)) => describe(heap, ValueKind::Levels, &net),
        Ok(AnyNet::Sets(net)) => describe(heap, ValueKind::Sets, &net),
        Err(LoadError::Faulty(fault)) => refused(heap, fault),
        Err(LoadError::OutOfMemory(want)) => Err(want),
    }
}
