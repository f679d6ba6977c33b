// Answers each framed text of standard input, and prints the whole replies.
#![tactic(auto)]

use framed_texts::frames::Frames;
use replies::printing::printed;
use std::io;
use std::io::{Read, Write};

fn main(rt: HostRuntime) -> io::Result<()> {
    let heap = rt.alloc();
    // Read as each program of framed texts does: what follows of it differs, and a function for these two lines would be no shorter.
    let mut stream = Vec::new(heap);
    rt.stdin().read_to_end(&mut stream)?;
    for (case, text) in (1..).zip(Frames::of(stream.as_slice())) {
        let reply = printed(heap, text)?;
        println!(rt; "case,{case}")?;
        rt.stdout().write_all(reply.as_slice())?;
    }
    Ok(())
}
