use kinds::{Kind, Refusal};
use plants::{Horizon, Places, Plant};
use routes::Way;
use std::alloc::{AllocError, Global};
use std::fmt::Debug;
use std::process::Abort;
use std::test::Fail;

// A sheet of an input block, an output block and `need` working cells, with a mark before,
// between and after them.
fn sheet_of<T: Kind>(
    heap: Global,
    inputs: &[T],
    outputs: &[T],
    need: usize,
    mark: T,
) -> Result<Vec<T>, AllocError> {
    let mut sheet = Vec::new(heap);
    sheet.push(mark)?;
    sheet.extend_from_slice(inputs)?;
    sheet.push(mark)?;
    sheet.extend_from_slice(outputs)?;
    sheet.push(mark)?;
    sheet.extend_from_slice(vec![in heap; mark; need]?.as_slice())?;
    sheet.push(mark)?;
    Ok(sheet)
}

// Where the blocks of such a sheet begin.
fn places_of(inputs: usize, outputs: usize) -> Places {
    Places {
        input: 1,
        output: inputs.saturating_add(2),
        working: inputs.saturating_add(outputs).saturating_add(3),
    }
}

// Both sheets hold the same, but in `need` cells from `working`.
fn agree<T: Kind + PartialEq + Debug>(
    rt: &impl Abort,
    sheet: &[T],
    wanted: &[T],
    working: usize,
    need: usize,
    case: &str,
) {
    assert_eq!(rt; sheet.len(), wanted.len(), "{case}");
    for (i, (cell, other)) in sheet.iter().zip(wanted.iter()).enumerate() {
        if i < working || i - working >= need {
            assert_eq!(rt; *cell, *other, "{case}");
        }
    }
}

// A call of a plant, one way or the other.
fn call<P: Plant>(
    plant: &P,
    way: Way,
    k: Horizon,
    sheet: &mut [P::Value],
    at: Places,
) -> Result<(), Refusal> {
    match way {
        Way::Forth => plant.forward(k, sheet, at),
        Way::Back => plant.backward(k, sheet, at),
    }
}

// One way of a plant brings about the block asked for, and no other cell is changed but the
// working cells. The parts of a case stay parameters: a struct would be written out at each call.
fn gives<T: Kind + PartialEq + Debug, P: Plant<Value = T>>(
    rt: &impl Abort,
    heap: Global,
    plant: &P,
    mark: T,
    way: Way,
    inputs: &[T],
    outputs: &[T],
    case: &str,
) -> Result<(), Fail> {
    let k = Horizon::try_from(3)?;
    let need = plant.need(k);
    let mut sheet = match way {
        Way::Forth => {
            let blank = vec![in heap; mark; outputs.len()]?;
            sheet_of(heap, inputs, blank.as_slice(), need, mark)?
        }
        Way::Back => {
            let blank = vec![in heap; mark; inputs.len()]?;
            sheet_of(heap, blank.as_slice(), outputs, need, mark)?
        }
    };
    let wanted = sheet_of(heap, inputs, outputs, need, mark)?;
    let at = places_of(inputs.len(), outputs.len());
    assert_eq!(rt;
        call(plant, way, k, sheet.as_mut_slice(), at),
        Ok(()),
        "{case}"
    );
    agree(
        rt,
        sheet.as_slice(),
        wanted.as_slice(),
        at.working,
        need,
        case,
    );
    Ok(())
}

// The input block drives this output block.
pub(crate) fn strikes<T: Kind + PartialEq + Debug, P: Plant<Value = T>>(
    rt: &impl Abort,
    heap: Global,
    plant: &P,
    mark: T,
    inputs: &[T],
    outputs: &[T],
    case: &str,
) -> Result<(), Fail> {
    gives(rt, heap, plant, mark, Way::Forth, inputs, outputs, case)
}

// The greatest input block for this output block.
pub(crate) fn recalls<T: Kind + PartialEq + Debug, P: Plant<Value = T>>(
    rt: &impl Abort,
    heap: Global,
    plant: &P,
    mark: T,
    outputs: &[T],
    inputs: &[T],
    case: &str,
) -> Result<(), Fail> {
    gives(rt, heap, plant, mark, Way::Back, inputs, outputs, case)
}

// Both calls give this result at these places of a sheet of `len` cells, 3 beats to a wire.
// Where they are refused nothing is changed.
pub(crate) fn answers<T: Kind + PartialEq + Debug, P: Plant<Value = T>>(
    rt: &impl Abort,
    heap: Global,
    plant: &P,
    mark: T,
    len: usize,
    at: Places,
    wanted: Result<(), Refusal>,
    case: &str,
) -> Result<(), Fail> {
    let k = Horizon::try_from(3)?;
    let before = vec![in heap; mark; len]?;
    let mut sheet = vec![in heap; mark; len]?;
    for way in [Way::Forth, Way::Back] {
        assert_eq!(rt;
            call(plant, way, k, sheet.as_mut_slice(), at),
            wanted,
            "{case}"
        );
        if wanted.is_err() {
            agree(rt, sheet.as_slice(), before.as_slice(), len, 0, case);
        }
    }
    Ok(())
}

// A call of so many beats needs so many working cells.
pub(crate) fn needs<P: Plant>(
    rt: &impl Abort,
    plant: &P,
    beats: usize,
    cells: usize,
) -> Result<(), Fail> {
    let k = Horizon::try_from(beats)?;
    assert_eq!(rt; plant.need(k), cells);
    Ok(())
}
