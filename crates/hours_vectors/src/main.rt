// Answers each framed text of standard input, and prints the replies without their schedules.
#![tactic(auto)]

use framed_texts::frames::Frames;
use replies::printing::printed;
use std::io;
use std::io::Read;

// Prints the lines of a reply, but for those that begin with a digit.
fn print_outline(rt: &HostRuntime, reply: &str) -> io::Result<()> {
    for line in reply.lines() {
        if !line.starts_with(|c: char| c.is_ascii_digit()) {
            println!(rt; "{line}")?;
        }
    }
    Ok(())
}

fn main(rt: HostRuntime) -> anyhow::Result<()> {
    let heap = rt.alloc();
    // Read as each program of framed texts does: what follows of it differs, and a function for these two lines would be no shorter.
    let mut stream = Vec::new(heap);
    rt.stdin().read_to_end(&mut stream)?;
    for (case, text) in (1..).zip(Frames::of(stream.as_slice())) {
        let reply = printed(heap, text)?;
        println!(rt; "case,{case}")?;
        print_outline(&rt, std::str::from_utf8(reply.as_slice())?)?;
    }
    Ok(())
}
