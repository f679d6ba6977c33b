// Copies a text from standard input to standard output as its reply.
#![tactic(auto)]

use replies::answer::MOST_TEXT;
use replies::printing::printed;
use std::io;
use std::io::{Read, Write};

// One byte more than a text can have: what comes after it changes no reply.
const MOST_READ: u64 = MOST_TEXT as u64 + 1;

fn main(rt: HostRuntime) -> io::Result<()> {
    let heap = rt.alloc();
    let mut text = Vec::new(heap);
    rt.stdin().take(MOST_READ).read_to_end(&mut text)?;
    let reply = printed(heap, text.as_slice())?;
    rt.stdout().write_all(reply.as_slice())
}
