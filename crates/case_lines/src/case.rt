// A line of a case: the name of what judges it, and the log that the words after it spell.
ghost use Rattle.std.specs.Prelude.{◌≡◌, IfOk, MatchResult};
ghost use Rattle.rules.specs.declared.refusal.Refusal.{Refusal};
ghost use Rattle.case_lines.specs.Spelled.{NoCase, SpellsCase};

use crate::run::log_of;
use rules::refusal::Refusal;
use std::alloc::{AllocError, Global};

#[derive(Drop)]
pub struct Case<'a> {
    pub name: &'a [u8],
    pub log: Vec<u8>,
}

impl<'a> Case<'a> {
    // The case that the line spells; a line that spells none is refused as spelled wrong.
    pub fn of(heap: Global, line: &'a str) -> Result<Result<Self, Refusal>, AllocError>
        ensures { IfOk result (λ read. MatchResult read (λ case. SpellsCase line.now case.name.now case.log.items) (λ why. NoCase line.now × (why ≡ Refusal.Spelling))) }
    {
        let Some(name) = line.split_whitespace().next() else {
            return Ok(Err(Refusal::Spelling));
        };
        let Some(log) = log_of(heap, line)? else {
            return Ok(Err(Refusal::Spelling));
        };
        Ok(Ok(Case {
            name: name.as_bytes(),
            log,
        }))
    }
}
