use crate::makers::{date, entry, leaving, level, place};
use crate::sheets::{answers, needs, recalls, strikes};
use kinds::{Channels, Date, Level, Refusal};
use links::Link;
use nets::Net;
use plants::{Places, Plant};
use std::alloc::{AllocError, Global};
use std::process::Abort;
use std::test::Fail;

// Input 0 to transition 0, on to transition 1 in the same beat and back in the next, and to
// output 0, with these values.
fn links_of<T: Copy>(
    heap: Global,
    enter: T,
    on: T,
    back: T,
    leave: T,
) -> Result<Vec<Link<T>>, AllocError> {
    let mut links = Vec::new(heap);
    links.push(entry(0, 0, enter))?;
    links.push(place(0, 1, 0, on))?;
    links.push(place(1, 0, 1, back))?;
    links.push(leaving(1, 0, leave))?;
    Ok(links)
}

// Such links over dates.
fn dated_links(heap: Global) -> Result<Vec<Link<Date>>, AllocError> {
    links_of(heap, date(0), date(30), date(120), date(0))
}

#[test]
fn dates(rt: HostRuntime) -> Result<(), Fail> {
    let heap = rt.alloc();
    let links = dated_links(heap)?;
    let net = Net::new(links.as_slice(), 2, 1, 1);
    let mark = date(999);
    let never = Date::Never;
    let open = Date::Open;
    let impulse = [date(0), never, never];
    let response = [date(30), date(180), date(330)];
    strikes(&rt, heap, &net, mark, &impulse, &response, "impulse")?;
    strikes(
        &rt,
        heap,
        &net,
        mark,
        &[never, never, never],
        &[never, never, never],
        "silence",
    )?;
    let dues = [date(500), date(600), date(900)];
    let plan = [date(420), date(570), date(870)];
    let heard = [date(450), date(600), date(900)];
    recalls(&rt, heap, &net, mark, &dues, &plan, "plan")?;
    strikes(&rt, heap, &net, mark, &plan, &heard, "plan played")?;
    recalls(
        &rt,
        heap,
        &net,
        mark,
        &[open, open, open],
        &[open, open, open],
        "all open",
    )
}

// Links beyond the counts take no part.
#[test]
fn strangers(rt: HostRuntime) -> Result<(), Fail> {
    let heap = rt.alloc();
    let zero = date(0);
    let mut links = dated_links(heap)?;
    links.push(entry(1, 0, zero))?;
    links.push(entry(0, 2, zero))?;
    links.push(place(0, 2, 0, zero))?;
    links.push(place(2, 1, 0, zero))?;
    links.push(leaving(0, 1, zero))?;
    links.push(leaving(2, 0, zero))?;
    let net = Net::new(links.as_slice(), 2, 1, 1);
    let played = [zero, Date::Never, Date::Never];
    let heard = [date(30), date(180), date(330)];
    strikes(&rt, heap, &net, date(999), &played, &heard, "forward")?;
    let dues = [date(500), date(600), date(900)];
    let plan = [date(420), date(570), date(870)];
    recalls(&rt, heap, &net, date(1), &dues, &plan, "backward")
}

#[test]
fn levels(rt: HostRuntime) -> Result<(), Fail> {
    let heap = rt.alloc();
    let links = links_of(heap, level(100), level(90), level(60), level(110))?;
    let net = Net::new(links.as_slice(), 2, 1, 1);
    let mark = level(77);
    let played = [level(120), level(0), level(80)];
    let heard = [level(90), level(60), level(80)];
    strikes(&rt, heap, &net, mark, &played, &heard, "forward")?;
    let dues = [level(95), level(50), level(70)];
    let plan = [level(50), level(50), level(70)];
    recalls(&rt, heap, &net, mark, &dues, &plan, "backward")?;
    strikes(&rt, heap, &net, mark, &plan, &plan, "plan played")?;
    let loose = [level(95), level(65), level(100)];
    let top = level(127);
    recalls(
        &rt,
        heap,
        &net,
        mark,
        &loose,
        &[top, level(65), top],
        "backward to the top",
    )
}

#[test]
fn sets(rt: HostRuntime) -> Result<(), Fail> {
    let heap = rt.alloc();
    let links = links_of(
        heap,
        Channels::from(0x0ff0),
        Channels::from(0xfbff),
        Channels::from(0xf0ff),
        Channels::from(0xff3f),
    )?;
    let net = Net::new(links.as_slice(), 2, 1, 1);
    let mark = Channels::from(0x5a5a);
    let played = [
        Channels::from(0xffff),
        Channels::from(0),
        Channels::from(0x0102),
    ];
    let heard = [
        Channels::from(0x0b30),
        Channels::from(0x0030),
        Channels::from(0x0130),
    ];
    strikes(&rt, heap, &net, mark, &played, &heard, "forward")?;
    let dues = [
        Channels::from(0x0030),
        Channels::from(0x0b10),
        Channels::from(0x0130),
    ];
    let plan = [
        Channels::from(0xf4df),
        Channels::from(0xffdf),
        Channels::from(0xf5ff),
    ];
    let kept = [
        Channels::from(0x0010),
        Channels::from(0x0b10),
        Channels::from(0x0130),
    ];
    recalls(&rt, heap, &net, mark, &dues, &plan, "backward")?;
    strikes(&rt, heap, &net, mark, &plan, &kept, "plan played")
}

// Both calls of the net over dates give this result with these places.
fn tries(
    rt: &impl Abort,
    heap: Global,
    len: usize,
    input: usize,
    output: usize,
    working: usize,
    wanted: Result<(), Refusal>,
    case: &str,
) -> Result<(), Fail> {
    let links = dated_links(heap)?;
    let net = Net::new(links.as_slice(), 2, 1, 1);
    let at = Places {
        input,
        output,
        working,
    };
    answers(rt, heap, &net, date(999), len, at, wanted, case)
}

fn refuses(
    rt: &impl Abort,
    heap: Global,
    len: usize,
    input: usize,
    output: usize,
    working: usize,
    case: &str,
) -> Result<(), Fail> {
    tries(
        rt,
        heap,
        len,
        input,
        output,
        working,
        Err(Refusal::Short),
        case,
    )
}

// A net made with the first three counts has the other three transitions, inputs and outputs.
fn counts_as(
    rt: &impl Abort,
    transitions: usize,
    inputs: usize,
    outputs: usize,
    n: usize,
    m: usize,
    p: usize,
) -> Result<(), Fail> {
    let links = [entry(0, 0, date(0))];
    let net = Net::new(&links, transitions, inputs, outputs);
    assert!(rt; n <= 64);
    needs(rt, &net, 1, 2 * n)?;
    needs(rt, &net, 3, 4 * n)?;
    needs(rt, &net, 64, 65 * n)?;
    assert_eq!(rt; net.inputs(), m);
    assert_eq!(rt; net.outputs(), p);
    Ok(())
}

#[test]
fn counts(rt: HostRuntime) -> Result<(), Fail> {
    counts_as(&rt, 2, 1, 1, 2, 1, 1)?;
    counts_as(&rt, 64, 16, 16, 64, 16, 16)?;
    counts_as(&rt, 0, 0, 0, 1, 1, 1)?;
    counts_as(&rt, 65, 17, 17, 64, 16, 16)
}

#[test]
fn room(rt: HostRuntime) -> Result<(), Fail> {
    let heap = rt.alloc();
    tries(&rt, heap, 14, 0, 3, 6, Ok(()), "just enough")?;
    tries(&rt, heap, 14, 3, 0, 6, Ok(()), "the output first")?;
    tries(&rt, heap, 20, 0, 5, 11, Ok(()), "blocks apart")?;
    refuses(&rt, heap, 13, 0, 3, 6, "a cell short")?;
    refuses(&rt, heap, 0, 0, 3, 6, "no cells")
}

#[test]
fn clashes(rt: HostRuntime) -> Result<(), Fail> {
    let heap = rt.alloc();
    let most = usize::MAX;
    let cases = [
        (0, 2, 10, "the output in the input"),
        (2, 0, 10, "the input in the output"),
        (4, 4, 10, "one block for both"),
        (0, 8, 10, "the output into the working cells"),
        (8, 0, 10, "the input into the working cells"),
        (0, 20, 3, "the output after the working cells"),
        (20, 0, 3, "the input after the working cells"),
        (most, 3, 6, "the input at the last place"),
        (0, most - 1, 6, "the output near the last place"),
        (0, 3, most, "the working cells at the last place"),
        (0, 3, most - 7, "the working cells would end at 0"),
        (most - 2, 0, most, "all near the last place"),
    ];
    for (input, output, working, case) in cases {
        refuses(&rt, heap, 30, input, output, working, case)?;
    }
    Ok(())
}
