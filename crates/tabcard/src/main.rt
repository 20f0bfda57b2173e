#![tactic(auto)]

use listing::refused;
use loading::{LoadError, load};
use printing::card;
use std::fs;
use std::io::Write;

// The bytes of a file; one that cannot be read is told of on standard error.
// Not shared with `tabplan`: a crate for this one function would be no plainer.
fn read_file(rt: &HostRuntime, name: &str) -> anyhow::Result<Vec<u8>> {
    match fs::read(rt, name) {
        Ok(bytes) => Ok(bytes),
        Err(error) => {
            eprintln!(rt; "tabcard: cannot read {name}: {error}")?;
            Err(error.into())
        }
    }
}

// Loads the net, plays the score on it and prints the card. The score of a refused net is
// not opened.
fn run(rt: &HostRuntime) -> anyhow::Result<()> {
    let net = read_file(rt, "net.txt")?;
    let printed = match load(rt.alloc(), net.as_slice()) {
        Ok(found) => {
            let score = read_file(rt, "score.txt")?;
            card(rt.alloc(), &found, score.as_slice())?
        }
        Err(LoadError::Faulty(fault)) => refused(rt.alloc(), fault)?,
        Err(LoadError::OutOfMemory(want)) => return Err(want.into()),
    };
    let mut out = rt.stdout();
    out.write_all(printed.as_slice())?;
    Ok(())
}

fn main(rt: HostRuntime) -> anyhow::Result<()> {
    run(&rt)
}
