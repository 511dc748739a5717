// rostercheck: a channel file on standard input, its listing on standard output.
#![tactic(auto)]

use anyhow::anyhow;
use channel::listing::{LEAST_BUFFER, MOST_BYTES, listing};
use std::io::{Read, Write};

// A file of so many bytes is refused whatever the rest is, so no more is read.
const ENOUGH: u64 = MOST_BYTES as u64 + 1;

fn main(rt: HostRuntime) -> anyhow::Result<()> {
    let mut file = Vec::new(rt.alloc());
    rt.stdin().take(ENOUGH).read_to_end(&mut file)?;
    let mut buffer = [0u8; LEAST_BUFFER]; // lent to the listing, which asks for so many bytes
    let length = match listing(rt.alloc(), &file, &mut buffer) {
        Ok(length) => length,
        // Only want of memory has no number: it comes from three layers, and none of them tells a line.
        Err(refusal) if refusal.fault.number().is_some() => refusal.length,
        Err(_) => return Err(anyhow!("no memory")),
    };
    rt.stdout().write_all(&buffer[..length])?;
    Ok(())
}
