// The reply to a whole text.
ghost use Rattle.std.specs.Prelude.{List, IfOk};
ghost use Rattle.lines.specs.Texts.{calls_read};
ghost use Rattle.planner.specs.History.{fresh};
ghost use Rattle.planner.specs.OfBooks.{KeptBy};
ghost use Rattle.planner.specs.Promise.{Answer};
ghost use Rattle.replies.specs.Promised.{KeptUnder, Reply, Answered};
ghost use Rattle.replies.specs.Replies.{Replied};

use crate::reply::spell_reply;
use books::sets::{RuleSet, eu, us7, us8};
use lines::line::Line;
use lines::whole::{calls_of, read_text, set_of};
use planner::calls::run_calls;
use rules::book::RuleBook;
use rules::refusal::Refusal;
use std::alloc::{AllocError, Global};

// The reply to the lines of a text under a book.
fn reply_under<B: RuleBook>(
    heap: Global,
    book: &B,
    readings: &[Result<Line, Refusal>],
) -> Result<Vec<u8>, AllocError>
    ensures { IfOk result (λ reply. ((answers : List Answer) × KeptBy B.RuleBook B.Row.Figures book.now fresh (calls_read readings.now) answers × Replied 1 readings.now answers reply.items)) }
{
    let calls = calls_of(heap, readings)?;
    let answers = run_calls(heap, book, calls.as_slice())?;
    spell_reply(heap, readings, answers.as_slice())
}

// The reply to the lines of a text under a named rule set.
fn reply_by(
    heap: Global,
    set: RuleSet,
    readings: &[Result<Line, Refusal>],
) -> Result<Vec<u8>, AllocError>
    ensures { IfOk result (λ reply. ((answers : List Answer) × KeptUnder set (calls_read readings.now) answers × Replied 1 readings.now answers reply.items)) }
{
    // A match: the books of the sets are of two types, and a function over any of them would want a trait with a generic method, no plainer.
    match set {
        RuleSet::Us7 => reply_under(heap, &us7(), readings),
        RuleSet::Us8 => reply_under(heap, &us8(), readings),
        RuleSet::Eu => reply_under(heap, &eu(), readings),
    }
}

// The reply to a text, of any length.
fn reply_to(heap: Global, text: &[u8]) -> Result<Vec<u8>, AllocError>
    ensures { IfOk result (λ reply. Reply text.now reply.items) }
{
    let readings = read_text(heap, text)?;
    reply_by(heap, set_of(readings.as_slice()), readings.as_slice())
}

// The most bytes that a text can have.
pub const MOST_TEXT: usize = 4096;

// Writes the reply to a text at the front of the output, and gives its length. A text that is too long is refused and alters nothing;
// an output that is too short for the whole reply is refused and left all 0.
pub fn answer(
    heap: Global,
    text: &[u8],
    output: &mut [u8],
) -> Result<Result<usize, Refusal>, AllocError>
    ensures { Answered text.now output.old output.new result }
{
    if text.len() > MOST_TEXT {
        return Ok(Err(Refusal::Horizon));
    }
    let reply = reply_to(heap, text)?;
    if output.len() < reply.len() {
        output.fill(0);
        return Ok(Err(Refusal::Output));
    }
    output[0..reply.len()].copy_from_slice(reply.as_slice());
    Ok(Ok(reply.len()))
}
