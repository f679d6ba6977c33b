// Reads pairs of numbers, a pair to a line, and prints a smallest cover of them: smaller in both numbers is better.
// An argument says how often the choice is made.
#![tactic(auto)]

mod choice;
mod input;
mod pair;

use choice::{choose_in_place, choose_often, offer_all};
use frontier::Frontier;
use input::read_pairs;
use pair::Pair;
use std::{env, io};

fn times(rt: &HostRuntime) -> anyhow::Result<u32> {
    let mut words = env::args(rt)?;
    match words.nth(1) {
        Some(word) => Ok(word.as_str().parse::<u32>()?),
        None => Ok(1),
    }
}

fn print_kept(rt: &HostRuntime, kept: &[Pair]) -> io::Result<()> {
    println!(rt; "{} kept", kept.len())?;
    for pair in kept {
        println!(rt; "{pair}")?;
    }
    Ok(())
}

fn print_choice(rt: &HostRuntime, pairs: &[Pair]) -> anyhow::Result<()> {
    let mut places = vec![in rt.alloc(); Pair::default(); pairs.len()]?;
    match choose_often(pairs, places.as_mut_slice(), times(rt)?) {
        Ok(count) => print_kept(rt, &places.as_slice()[..count])?,
        Err(why) => println!(rt; "refused: {why}")?,
    }
    Ok(())
}

// The same with too few places, where the first pair that lacks one is refused.
fn print_few(rt: &HostRuntime, pairs: &[Pair]) -> io::Result<()> {
    let mut places = [Pair::default(); 4];
    let mut frontier = Frontier::new(&mut places);
    if let Err(why) = offer_all(&mut frontier, pairs) {
        println!(rt; "refused: {why}")?;
    }
    print_kept(rt, frontier.kept())
}

// The same with no other places than those that the pairs stand in.
fn print_in_place(rt: &HostRuntime, pairs: &mut [Pair]) -> io::Result<()> {
    let count = choose_in_place(pairs);
    print_kept(rt, &pairs[..count])
}

fn main(rt: HostRuntime) -> anyhow::Result<()> {
    let mut pairs = read_pairs(&rt)?;
    print_choice(&rt, pairs.as_slice())?;
    print_few(&rt, pairs.as_slice())?;
    print_in_place(&rt, pairs.as_mut_slice())?;
    Ok(())
}
