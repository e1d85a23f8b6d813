// Runs the test vectors: judges each pair of files of cases.bin as retcheck would.
#![tactic(auto)]

use anyhow::anyhow;
use office::print_judgement;
use std::{fs, io};

// More than cases.bin has.
const MOST: u32 = 1000;

// The first case and what follows it: two lengths, lowest byte first, and the two files.
fn split_case(bytes: &[u8]) -> Option<(&[u8], &[u8], &[u8])> {
    let (house_len, rest) = bytes.split_first_chunk::<4>()?;
    let (site_len, rest) = rest.split_first_chunk::<4>()?;
    let (house, rest) = rest.split_at_checked(u32::from_le_bytes(*house_len) as usize)?;
    let (site, rest) = rest.split_at_checked(u32::from_le_bytes(*site_len) as usize)?;
    Some((house, site, rest))
}

fn main(rt: HostRuntime) -> anyhow::Result<()> {
    let bytes = fs::read(&rt, "cases.bin")?;
    let mut rest = bytes.as_slice();
    for n in 1..MOST {
        let Some((house, site, after)) = split_case(rest) else {
            break;
        };
        println!(rt; "case {n}")?;
        print_judgement(rt.alloc(), house, site, &mut io::writer(&rt))?;
        rest = after;
    }
    if !rest.is_empty() {
        return Err(anyhow!("cases.bin is cut"));
    }
    Ok(())
}
