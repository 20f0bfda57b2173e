#![tactic(auto)]

// Tells the report of each net on standard input, to try both sides of every limit.
// A line `=NAME` begins a case, `?` ends it; `*NNNNN LINE` stands for LINE so many
// times, and a line that ends with a backslash has no end of line in the net.
use anyhow::anyhow;
use card::report;
use numerals::read_number;
use std::io::Write;

// Appends one line of a net.
fn add(text: &mut Vec<u8>, line: &[u8]) -> anyhow::Result<()> {
    match line {
        [front @ .., b'\\'] => text.extend_from_slice(front)?,
        _ => {
            text.extend_from_slice(line)?;
            text.push(b'\n')?;
        }
    }
    Ok(())
}

fn add_times(text: &mut Vec<u8>, times: &[u8], line: &[u8]) -> anyhow::Result<()> {
    let times = read_number(times).ok_or_else(|| anyhow!("a count of five digits is wanted"))?;
    for _ in 0..times {
        add(text, line)?;
    }
    Ok(())
}

// Prints the name of a case, or what is told of its net.
fn take(rt: &HostRuntime, text: &mut Vec<u8>, line: &[u8]) -> anyhow::Result<()> {
    let mut out = rt.stdout();
    match line {
        [b'=', ..] => {
            text.clear();
            out.write_all(line)?;
            out.write_all(b"\n")?;
        }
        [b'?'] => {
            let told = report(rt.alloc(), text.as_slice())?;
            out.write_all(told.as_slice())?;
        }
        [b'*', a, b, c, d, e, b' ', rest @ ..] => add_times(text, &[*a, *b, *c, *d, *e], rest)?,
        _ => add(text, line)?,
    }
    Ok(())
}

fn main(rt: HostRuntime) -> anyhow::Result<()> {
    let mut text = Vec::new(rt.alloc());
    for line in rt.lines(rt.alloc()) {
        take(&rt, &mut text, line?.as_bytes())?;
    }
    Ok(())
}
