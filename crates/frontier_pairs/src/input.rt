// The pairs of a text, a pair to a line.
ghost use Rattle.std.specs.Prelude.{IfOk};
ghost use Rattle.frontier_pairs.specs.Lines.{Line};

use crate::pair::Pair;
use std::error::Error;
use std::fmt;
use std::num::ParseIntError;
use std::str::FromStr;

// What a line is that is no pair of numbers.
#[derive(Clone, Copy, Debug)]
pub struct NoPair;

impl fmt::Display for NoPair {
    fn fmt<W: fmt::Write>(&self, f: &mut fmt::Formatter<W>) -> fmt::Result {
        write!(f, "a line is no pair of numbers")
    }
}

impl Error for NoPair {}

impl From<ParseIntError> for NoPair {
    fn from(_why: ParseIntError) -> NoPair {
        NoPair
    }
}

impl FromStr for Pair {
    type Err = NoPair;

    ghost from_str_gives = { λ line r. IfOk r (Line line) };

    // The two numbers of a line stand a space apart.
    fn from_str(line: &str) -> Result<Pair, NoPair> {
        let (before, after) = line.split_once(' ').ok_or(NoPair)?;
        let first = before.parse::<u32>()?;
        let second = after.parse::<u32>()?;
        Ok(Pair { first, second })
    }
}

// The pairs of standard input, up to its end.
pub(crate) fn read_pairs(rt: &HostRuntime) -> anyhow::Result<Vec<Pair>> {
    let mut pairs = Vec::new(rt.alloc());
    for line in rt.lines(rt.alloc()) {
        let pair = line?.as_str().parse::<Pair>()?;
        pairs.push(pair)?;
    }
    Ok(pairs)
}
