use crate::makers::{date, place};
use circuits::{CircuitFault, check_circuits};
use kinds::{Channels, Date, Kind, Level};
use links::Link;
use std::alloc::{AllocError, Global};
use std::process::Abort;
use std::test::Fail;

// What the list holds before a check.
const MARK: u8 = 200;

// The list begins with the named transitions, and its other bytes are marks.
fn begins(rt: &impl Abort, list: &[u8], named: &[u8], case: &str) -> Result<(), Fail> {
    assert!(rt; named.len() <= list.len(), "{case}");
    for (i, byte) in list.iter().enumerate() {
        assert_eq!(rt; *byte, named.get(i).copied().unwrap_or(MARK), "{case}");
    }
    Ok(())
}

// A check with cells enough gives this result, and names these transitions.
fn gives<T: Kind>(
    rt: &impl Abort,
    heap: Global,
    links: &[Link<T>],
    transitions: usize,
    wanted: Result<(), CircuitFault>,
    named: &[u8],
    case: &str,
) -> Result<(), Fail> {
    let mut cells = vec![in heap; T::top(); 8192]?;
    let mut list = [MARK; 64];
    assert_eq!(rt;
        check_circuits(links, transitions, cells.as_mut_slice(), &mut list),
        wanted,
        "{case}"
    );
    begins(rt, &list, named, case)
}

fn accepts<T: Kind>(
    rt: &impl Abort,
    heap: Global,
    links: &[Link<T>],
    transitions: usize,
    case: &str,
) -> Result<(), Fail> {
    gives(rt, heap, links, transitions, Ok(()), &[], case)
}

fn refuses<T: Kind>(
    rt: &impl Abort,
    heap: Global,
    links: &[Link<T>],
    transitions: usize,
    start: usize,
    named: &[u8],
    case: &str,
) -> Result<(), Fail> {
    let wanted = Err(CircuitFault::Circuit(start, named.len()));
    gives(rt, heap, links, transitions, wanted, named, case)
}

#[test]
fn two_places(rt: HostRuntime) -> Result<(), Fail> {
    let heap = rt.alloc();
    let zero = date(0);
    let some = date(30);
    refuses(
        &rt,
        heap,
        &[place(0, 1, 0, some), place(1, 0, 0, zero)],
        2,
        0,
        &[0, 1],
        "gain 30",
    )?;
    accepts(
        &rt,
        heap,
        &[place(0, 1, 0, zero), place(1, 0, 0, zero)],
        2,
        "gain 0",
    )?;
    accepts(
        &rt,
        heap,
        &[place(0, 1, 1, some), place(1, 0, 0, zero)],
        2,
        "a token on the first",
    )?;
    accepts(
        &rt,
        heap,
        &[place(0, 1, 0, some), place(1, 0, 1, zero)],
        2,
        "a token on the second",
    )
}

#[test]
fn lone_loops(rt: HostRuntime) -> Result<(), Fail> {
    let heap = rt.alloc();
    refuses(&rt, heap, &[place(3, 3, 0, date(1))], 5, 3, &[3], "1 tick")?;
    accepts(&rt, heap, &[place(3, 3, 0, date(0))], 5, "0 ticks")?;
    refuses(&rt, heap, &[place(3, 3, 0, Date::Open)], 5, 3, &[3], "open")?;
    accepts(&rt, heap, &[place(3, 3, 0, Date::Never)], 5, "never")
}

#[test]
fn which_is_named(rt: HostRuntime) -> Result<(), Fail> {
    let heap = rt.alloc();
    let zero = date(0);
    let five = date(5);
    let parallel = [
        place(0, 1, 0, zero),
        place(0, 1, 0, five),
        place(1, 0, 0, zero),
    ];
    refuses(&rt, heap, &parallel, 2, 0, &[0, 1], "parallel places")?;
    let turned = [
        place(0, 1, 0, five),
        place(0, 1, 0, zero),
        place(1, 0, 0, zero),
    ];
    let case = "parallel places, the other way round";
    refuses(&rt, heap, &turned, 2, 0, &[0, 1], case)?;
    let equals = [
        place(2, 3, 0, five),
        place(3, 2, 0, zero),
        place(0, 1, 0, zero),
        place(1, 0, 0, five),
    ];
    refuses(&rt, heap, &equals, 4, 0, &[0, 1], "two of one length")?;
    let lengths = [
        place(0, 1, 0, five),
        place(1, 2, 0, zero),
        place(2, 0, 0, zero),
        place(5, 4, 0, zero),
        place(4, 5, 0, five),
    ];
    refuses(&rt, heap, &lengths, 6, 4, &[4, 5], "the shorter one")?;
    let branches = [
        place(0, 3, 0, five),
        place(3, 1, 0, zero),
        place(0, 2, 0, five),
        place(2, 1, 0, zero),
        place(1, 0, 0, zero),
    ];
    refuses(&rt, heap, &branches, 4, 0, &[0, 2, 1], "two with one start")
}

// A ring of 64 tokenless places, all of 0 ticks but the one out of transition 17. By number, as
// each place is made of it.
fn ring(heap: Global, odd: Date) -> Result<Vec<Link<Date>>, AllocError> {
    let zero = date(0);
    let mut links = Vec::new(heap);
    for from in 0u8..64 {
        let value = if from == 17 { odd } else { zero };
        links.push(place(from, (from + 1) % 64, 0, value))?;
    }
    Ok(links)
}

#[test]
fn rings(rt: HostRuntime) -> Result<(), Fail> {
    let heap = rt.alloc();
    let faulty = ring(heap, date(1))?;
    let all = (0u8..64).collect::<Vec<u8>>(heap)?;
    refuses(
        &rt,
        heap,
        faulty.as_slice(),
        64,
        0,
        all.as_slice(),
        "gain 1",
    )?;
    accepts(&rt, heap, faulty.as_slice(), 63, "a transition less")?;
    let even = ring(heap, date(0))?;
    accepts(&rt, heap, even.as_slice(), 64, "gain 0")
}

#[test]
fn counts(rt: HostRuntime) -> Result<(), Fail> {
    let heap = rt.alloc();
    let one = date(1);
    let outer = [place(0, 2, 0, one), place(2, 0, 0, one)];
    accepts(&rt, heap, &outer, 2, "a link beyond the count")?;
    refuses(&rt, heap, &outer, 3, 0, &[0, 2], "a link within the count")?;
    let loops = [place(1, 1, 0, one), place(0, 0, 0, one)];
    refuses(&rt, heap, &loops, 0, 0, &[0], "0 is 1, both loops")?;
    accepts(
        &rt,
        heap,
        &[place(1, 1, 0, one)],
        0,
        "0 is 1, the outer loop",
    )?;
    refuses(
        &rt,
        heap,
        &[place(63, 63, 0, one)],
        65,
        63,
        &[63],
        "65 is 64",
    )?;
    accepts(
        &rt,
        heap,
        &[place(64, 64, 0, one)],
        65,
        "65 is 64, the outer loop",
    )
}

// A check of n transitions, with a loop of this gain at transition 0, has so many cells and
// a list of `room` bytes. The cells from `kept` on are unchanged.
fn measures(
    rt: &impl Abort,
    heap: Global,
    gain: Date,
    n: usize,
    cells: usize,
    room: usize,
    kept: usize,
    wanted: Result<(), CircuitFault>,
    case: &str,
) -> Result<(), Fail> {
    let mark = date(77);
    let links = [place(0, 0, 0, gain)];
    let mut sheet = vec![in heap; mark; cells]?;
    let mut list = vec![in heap; MARK; room]?;
    assert_eq!(rt;
        check_circuits(&links, n, sheet.as_mut_slice(), list.as_mut_slice()),
        wanted,
        "{case}"
    );
    for cell in sheet.as_slice().iter().skip(kept) {
        assert_eq!(rt; *cell, mark, "{case}");
    }
    match wanted {
        Err(CircuitFault::Circuit(_, _)) => begins(rt, list.as_slice(), &[0], case),
        _ => begins(rt, list.as_slice(), &[], case),
    }
}

#[test]
fn space(rt: HostRuntime) -> Result<(), Fail> {
    let heap = rt.alloc();
    let zero = date(0);
    let one = date(1);
    let named = Err(CircuitFault::Circuit(0, 1));
    let short = Err(CircuitFault::Short);
    let cases = [
        (one, 2, 8, 64, 8, named, "just enough"),
        (one, 2, 7, 64, 0, short, "a cell short"),
        (one, 2, 8, 63, 0, short, "a byte short"),
        (one, 2, 0, 0, 0, short, "nothing"),
        (one, 2, 12, 70, 8, named, "more than enough, refused"),
        (zero, 2, 12, 70, 8, Ok(()), "more than enough, accepted"),
        (zero, 2, 7, 64, 0, short, "a cell short of an accepted net"),
        (one, 0, 1, 64, 0, short, "0 is 1, a cell short"),
        (one, 0, 2, 64, 2, named, "0 is 1, enough"),
        (one, 65, 8191, 64, 0, short, "65 is 64, a cell short"),
        (one, 65, 8192, 64, 8192, named, "65 is 64, enough"),
    ];
    for (gain, n, cells, room, kept, wanted, case) in cases {
        measures(&rt, heap, gain, n, cells, room, kept, wanted, case)?;
    }
    Ok(())
}

// One is top, so that every circuit passes.
#[test]
fn levels_and_sets(rt: HostRuntime) -> Result<(), Fail> {
    let heap = rt.alloc();
    let top = Level::top();
    accepts(
        &rt,
        heap,
        &[
            place(0, 1, 0, top),
            place(1, 0, 0, top),
            place(1, 1, 0, top),
        ],
        2,
        "levels",
    )?;
    let all = Channels::from(0xffff);
    accepts(
        &rt,
        heap,
        &[
            place(0, 1, 0, all),
            place(1, 0, 0, all),
            place(1, 1, 0, all),
        ],
        2,
        "sets",
    )
}
