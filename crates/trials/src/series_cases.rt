use crate::makers::{date, entry, leaving};
use crate::sheets::{answers, needs, recalls, strikes};
use cabling::Series;
use kinds::{Date, Refusal};
use nets::Net;
use plants::Places;
use std::test::Fail;

#[test]
fn copies(rt: HostRuntime) -> Result<(), Fail> {
    let heap = rt.alloc();
    let links = [entry(0, 0, date(10)), leaving(0, 0, date(5))];
    let pair = Series {
        first: Net::new(&links, 1, 1, 1),
        second: Net::new(&links, 1, 1, 1),
    };
    let mark = date(999);
    let never = Date::Never;
    let open = Date::Open;
    strikes(
        &rt,
        heap,
        &pair,
        mark,
        &[date(0), date(100), never],
        &[date(30), date(130), never],
        "forward",
    )?;
    recalls(
        &rt,
        heap,
        &pair,
        mark,
        &[date(130), date(30), date(29)],
        &[date(100), date(0), never],
        "backward",
    )?;
    recalls(
        &rt,
        heap,
        &pair,
        mark,
        &[open, open, never],
        &[open, open, never],
        "ends",
    )
}

#[test]
fn copies_in_little_room(rt: HostRuntime) -> Result<(), Fail> {
    let heap = rt.alloc();
    let links = [entry(0, 0, date(10)), leaving(0, 0, date(5))];
    let pair = Series {
        first: Net::new(&links, 1, 1, 1),
        second: Net::new(&links, 1, 1, 1),
    };
    let mark = date(999);
    needs(&rt, &pair, 1, 3)?;
    needs(&rt, &pair, 3, 7)?;
    needs(&rt, &pair, 64, 129)?;
    let at = Places {
        input: 0,
        output: 3,
        working: 6,
    };
    answers(&rt, heap, &pair, mark, 13, at, Ok(()), "just enough")?;
    answers(
        &rt,
        heap,
        &pair,
        mark,
        12,
        at,
        Err(Refusal::Short),
        "a cell short",
    )
}

// The second has an input that the first does not drive: it is never struck.
#[test]
fn input_without_wire(rt: HostRuntime) -> Result<(), Fail> {
    let heap = rt.alloc();
    let links = [entry(0, 0, date(10)), leaving(0, 0, date(5))];
    let wide = [
        entry(0, 0, date(1)),
        entry(1, 0, date(2)),
        leaving(0, 0, date(0)),
    ];
    let pair = Series {
        first: Net::new(&links, 1, 1, 1),
        second: Net::new(&wide, 1, 2, 1),
    };
    needs(&rt, &pair, 3, 10)?;
    let mark = date(999);
    strikes(
        &rt,
        heap,
        &pair,
        mark,
        &[date(0), Date::Never, date(50)],
        &[date(16), Date::Never, date(66)],
        "forward",
    )?;
    recalls(
        &rt,
        heap,
        &pair,
        mark,
        &[date(100), Date::Open, date(130)],
        &[date(84), Date::Open, date(114)],
        "backward",
    )
}

// The first has an output that the second does not hear: it bounds nothing.
#[test]
fn output_without_wire(rt: HostRuntime) -> Result<(), Fail> {
    let heap = rt.alloc();
    let wide = [
        entry(0, 0, date(10)),
        leaving(0, 0, date(5)),
        leaving(0, 1, date(7)),
    ];
    let links = [entry(0, 0, date(10)), leaving(0, 0, date(5))];
    let pair = Series {
        first: Net::new(&wide, 1, 1, 2),
        second: Net::new(&links, 1, 1, 1),
    };
    needs(&rt, &pair, 3, 10)?;
    let mark = date(1);
    strikes(
        &rt,
        heap,
        &pair,
        mark,
        &[date(0), Date::Never, date(50)],
        &[date(30), Date::Never, date(80)],
        "forward",
    )?;
    recalls(
        &rt,
        heap,
        &pair,
        mark,
        &[date(100), Date::Open, date(130)],
        &[date(70), Date::Open, date(100)],
        "backward",
    )
}
