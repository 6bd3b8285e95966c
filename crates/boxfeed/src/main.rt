//! Reads a feed from standard input and prints the line of its first record.
#![tactic(auto)]

use std::io::Read;

// Bytes past these are not read.
const MOST_BYTES: u64 = 32_768;

fn main(rt: HostRuntime) -> anyhow::Result<()> {
    let heap = rt.alloc();
    let mut bytes = Vec::new(heap);
    rt.stdin().take(MOST_BYTES).read_to_end(&mut bytes)?;
    println!(rt; "{}", feed::heading_line(heap, &bytes)?)?;
    Ok(())
}
