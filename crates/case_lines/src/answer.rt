// What the judge found, as a line: `lawful,LENGTH`, `breach,QUARTER,RULE,LAYER` or `refused,NUMBER`.
use rules::breach::Breach;
use rules::refusal::Refusal;
use std::fmt;

#[derive(Clone, Copy)]
pub struct Answer(pub Result<(usize, Option<Breach>), Refusal>);

impl fmt::Display for Answer {
    fn fmt<W: fmt::Write>(&self, f: &mut fmt::Formatter<W>) -> fmt::Result {
        match self.0 {
            Err(why) => write!(f, "refused,{}", u8::from(why)),
            Ok((length, None)) => write!(f, "lawful,{length}"),
            Ok((_, Some(breach))) => write!(f, "breach,{breach}"),
        }
    }
}
