ghost use Rattle.std.specs.Prelude.{◌≡◌, ◌≤◌, IfOk};
ghost use Rattle.loading.specs.Loads.{net_of};
ghost use Rattle.printing.specs.Cards.{Played, Card, CardOf, Printed};

use crate::perform::card_on;
use crate::scores::read_lines;
use kinds::Kind;
use listing::refused;
use loading::{AnyNet, CheckedNet, LoadError, copies_of, load};
use numerals::CardKind;
use plants::{Horizon, Plant};
use std::alloc::{AllocError, Global};
use texts::ScoreReader;

// The card of the lines that are left of a score, over so many beats.
fn play_score<T: CardKind>(
    heap: Global,
    net: &CheckedNet<T>,
    k: Horizon,
    score: ScoreReader<'_>,
) -> Result<Vec<u8>, AllocError>
    ensures { IfOk result (λ v. Played T.Kind.ops T.CardKind.text T.CardKind.reading (net_of T.Kind.ops net.now.counts net.now.links.items) k.beats score.entry.lines.text.now score.entry.lines.at v.items) }
{
    let heard = read_lines(heap, score)?;
    let plant = net.plant();
    let wires = 2 * (plant.inputs() + plant.outputs());
    let cells = wires * k.beats() + plant.need(k);
    let mut sheet = copies_of(heap, cells, T::bottom())?;
    card_on(heap, plant, k, sheet.as_mut_slice(), &heard)
}

// The card of a score on a net that was loaded.
fn play_net<T: CardKind>(
    heap: Global,
    net: &CheckedNet<T>,
    score: &[u8],
) -> Result<Vec<u8>, AllocError>
    ensures { IfOk result (λ v. Card T.Kind.ops T.CardKind.text T.CardKind.reading (net_of T.Kind.ops net.now.counts net.now.links.items) score.now v.items) }
{
    let mut reader = ScoreReader::new(score);
    match reader.read_beats() {
        Ok(beats) => {
            let k = Horizon::try_from(usize::from(beats)).unwrap();
            play_score(heap, net, k, reader)
        }
        Err(fault) => refused(heap, fault),
    }
}

// Plays a score on a net that was loaded, and gives the bytes of its card.
pub fn card(heap: Global, net: &AnyNet, score: &[u8]) -> Result<Vec<u8>, AllocError>
    ensures { IfOk result (λ v. CardOf net.now score.now v.items) }
{
    match net {
        AnyNet::Dates(net) => play_net(heap, net, score),
        AnyNet::Levels(net) => play_net(heap, net, score),
        AnyNet::Sets(net) => play_net(heap, net, score),
    }
}

// The card of a net's and a score's text.
pub fn print(heap: Global, net: &[u8], score: &[u8]) -> Result<Vec<u8>, AllocError>
    ensures { IfOk result (λ v. Printed net.now score.now v.items) }
{
    match load(heap, net) {
        Ok(found) => card(heap, &found, score),
        Err(LoadError::Faulty(fault)) => refused(heap, fault),
        Err(LoadError::OutOfMemory(want)) => Err(want),
    }
}
