//! Reads a section record from standard input, and prints the lines of its steps.
#![tactic(auto)]

use std::io;
use std::io::{Read, Write};

// One byte more than a record may have, so that a longer one is seen to be too long.
const MOST: u64 = record::LONGEST as u64 + 1;

fn main(rt: HostRuntime) -> io::Result<()> {
    let mut bytes = Vec::new(rt.alloc());
    rt.stdin().take(MOST).read_to_end(&mut bytes)?;
    let lines = record::transcript(rt.alloc(), bytes.as_slice())?;
    rt.stdout().write_all(lines.as_slice())
}
