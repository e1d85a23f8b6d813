// Judges the plans of an office: reads house.ret and site.ret, and prints a line for each plan.
#![tactic(auto)]

use office::print_judgement;
use std::io::Read;
use std::{fs, io};

// A file of 512 records and a byte more: what is longer is refused, however long it is.
const LONGEST: u64 = 512 * 48 + 1;

// What the file holds, up to there; one that cannot be opened counts as empty.
fn contents(rt: &HostRuntime, path: &str) -> io::Result<Vec<u8>> {
    let mut bytes = Vec::new(rt.alloc());
    if let Ok(file) = fs::open(rt, path) {
        file.take(LONGEST).read_to_end(&mut bytes)?;
    }
    Ok(bytes)
}

fn main(rt: HostRuntime) -> anyhow::Result<()> {
    let house = contents(&rt, "house.ret")?;
    let site = contents(&rt, "site.ret")?;
    print_judgement(rt.alloc(), &house, &site, &mut io::writer(&rt))?;
    Ok(())
}
