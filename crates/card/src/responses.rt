ghost use Rattle.std.specs.Prelude.{◌≡◌, ◌+◌, ◌*◌, ◌/◌, ◌%◌, ◌≤◌, ◌++◌, length, OnOk, string_bytes};
ghost use Rattle.nets.specs.Nets.{meant, net_need};
ghost use Rattle.card.specs.Responses.{at_once, Struck, told_responses, response_rows};

use crate::cells::write_cells;
use kinds::Kind;
use loading::{CheckedNet, copies_of};
use nets::Net;
use numerals::CardKind;
use plants::{Horizon, Places, Plant};
use std::alloc::{AllocError, Global};

// One in the first beat of a wire, bottom in the others.
fn once<T: Kind>(n: usize, k: Horizon) -> T
    ensures { result ≡ at_once T.Kind.ops (n / k.beats) (n % k.beats) }
{
    if n % k.beats() == 0 {
        T::one()
    } else {
        T::bottom()
    }
}

// Writes one into the first beat of each wire, and bottom into their other beats.
fn strike_once<T: Kind>(cells: &mut [T], k: Horizon)
    ensures struck { Struck T.Kind.ops k.beats (length cells.old) cells.new }
    ensures len { length cells.new ≡ length cells.old }
{
    for (n, cell) in cells.iter_mut().enumerate() {
        *cell = once(n, k);
    }
}

// Appends the strikes of a net all of whose inputs are triggered in the first beat alone.
fn respond<T: CardKind>(
    net: &Net<'_, T>,
    k: Horizon,
    sheet: &mut [T],
    out: &mut String,
) -> Result<(), AllocError>
    requires { net.now.inputs * k.beats + net.now.outputs * k.beats + net_need net.now k.beats ≤ length sheet.old }
    ensures { OnOk result (string_bytes out.new ≡ string_bytes out.old ++ told_responses T.Kind.ops T.CardKind.text (meant T.Kind.ops net.now) k.beats) }
{
    let (inputs, outputs) = (net.inputs(), net.outputs());
    let read = inputs * k.beats();
    let written = outputs * k.beats();
    strike_once(&mut sheet[..read], k);
    // The sheet has all the cells, so the call is not refused.
    let _ = net.strike(
        k,
        sheet,
        Places {
            input: 0,
            output: read,
            working: read + written,
        },
    );
    write_cells(&sheet[read..read + written], k, out)
}

// Appends the first responses of a net.
pub(crate) fn write_responses<T: CardKind>(
    heap: Global,
    net: &CheckedNet<T>,
    out: &mut String,
) -> Result<(), AllocError>
    ensures { OnOk result (string_bytes out.new ≡ string_bytes out.old ++ response_rows T.Kind.ops T.CardKind.text net.now.counts net.now.links.items) }
{
    let k = Horizon::try_from(4).unwrap();
    let plant = net.plant();
    let cells = (plant.inputs() + plant.outputs()) * k.beats() + plant.need(k);
    let mut sheet = copies_of(heap, cells, T::bottom())?;
    respond(&plant, k, sheet.as_mut_slice(), out)
}
