#![tactic(auto)]

use card::report;
use std::fs;
use std::io::Write;

// Reads the net and prints what is told of it.
fn run(rt: &HostRuntime) -> anyhow::Result<()> {
    let net = match fs::read(rt, "net.txt") {
        Ok(net) => net,
        Err(error) => {
            eprintln!(rt; "tabplan: cannot read net.txt: {error}")?;
            return Err(error.into());
        }
    };
    let told = report(rt.alloc(), net.as_slice())?;
    let mut out = rt.stdout();
    out.write_all(told.as_slice())?;
    Ok(())
}

fn main(rt: HostRuntime) -> anyhow::Result<()> {
    run(&rt)
}
