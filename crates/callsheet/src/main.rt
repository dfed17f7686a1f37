// Answers a call sheet from standard input on standard output.

#![tactic(auto)]

use dispatch::run::run;
use std::io;
use std::io::Read;

// One byte more than a sheet may have, so that a longer one is seen to be too long.
const READ_LIMIT: u64 = 65_537;

fn main(rt: HostRuntime) -> io::Result<()> {
    let mut sheet = Vec::new(rt.alloc());
    rt.stdin().take(READ_LIMIT).read_to_end(&mut sheet)?;
    let text = run(rt.alloc(), &sheet)?;
    print!(rt; "{text}")
}
