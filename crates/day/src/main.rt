// Reads a day file from standard input, and prints a line for each of its rows.
#![tactic(auto)]

use report::file::{bytes_to_read, report};
use std::io;
use std::io::Read;

fn main(rt: HostRuntime) -> io::Result<()> {
    let mut bytes = Vec::new(rt.alloc());
    rt.stdin().take(bytes_to_read()).read_to_end(&mut bytes)?;
    rt.print(report(rt.alloc(), bytes.as_slice())?)
}
