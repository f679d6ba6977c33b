// A run of calls on a new card and a new tour: the call that the promise stands on.
ghost use Rattle.std.specs.Prelude.{◌≡◌, IfOk};
ghost use Rattle.planner.specs.History.{fresh};
ghost use Rattle.planner.specs.OfBooks.{AnswersPlanFor, AnswersCallOn, KeptBy};

use crate::call::{Answer, Buffers, Call, Schedule};
use crate::card::DriverCard;
use crate::plan::{plan, ready};
use crate::search::first_label;
use crate::tour::Tour;
use rules::book::RuleBook;
use std::alloc::{AllocError, Global};

// Plans with buffers of these lengths, of which it makes what the search uses; nothing is made where no search is.
fn plan_with<B: RuleBook>(
    heap: Global,
    card: &DriverCard<B>,
    tour: &Tour,
    buffers: Buffers,
) -> Result<Answer, AllocError>
    ensures { IfOk result (AnswersPlanFor B.RuleBook B.Row.Figures card.entry.now tour.now buffers) }
{
    // `?` leaves where the heap is out; a refusal is an answer.
    let size = match ready(card, tour, buffers) {
        Ok(size) => size,
        Err(why) => return Ok(Err(why)),
    };
    // The label is copied: `vec!` would clone it, and a carrier's row may have a clone that fails.
    let first = first_label(tour.stops(), card.row());
    let mut sheet = Vec::with_capacity(heap, buffers.labels)?;
    sheet.resize_with(buffers.labels, || first)?;
    let mut trail = vec![in heap; 0u16; size.width * size.span]?;
    let mut letters = vec![in heap; 0u8; size.span]?;
    let planned = plan(
        card,
        tour,
        sheet.as_mut_slice(),
        trail.as_mut_slice(),
        letters.as_mut_slice(),
    );
    match planned {
        Ok(end) => {
            letters.truncate(end - card.now());
            // Gives back what was made for the rest of the span, since a run of calls keeps the letters of all its plans.
            letters.shrink_to_fit();
            Ok(Ok(Some(Schedule { end, letters })))
        }
        Err(why) => Ok(Err(why)),
    }
}

// Makes one call. A card and a tour are two arguments, since record takes the one alone, and add and drop the other.
fn make<B: RuleBook>(
    heap: Global,
    card: &mut DriverCard<B>,
    tour: &mut Tour,
    call: Call,
) -> Result<Answer, AllocError>
    ensures { IfOk result (λ a. AnswersCallOn B.RuleBook B.Row.Figures card.entry.now tour.old call a card.exit.now tour.new) }
{
    let done = match call {
        Call::Record { letter, count } => card.record(letter, count),
        Call::Add(stop) => tour.add(stop),
        Call::Drop => tour.drop_last(),
        Call::Plan(buffers) => return plan_with(heap, card, tour, buffers),
    };
    Ok(done.map(|()| None))
}

// Makes the calls in turn on a new card and a new tour, and gives an answer for each.
pub fn run_calls<B: RuleBook>(
    heap: Global,
    book: &B,
    calls: &[Call],
) -> Result<Vec<Answer>, AllocError>
    ensures { IfOk result (λ answers. KeptBy B.RuleBook B.Row.Figures book.now fresh calls.now answers.items) }
{
    let mut card = DriverCard::new(book);
    let mut tour = Tour::new();
    let mut answers = Vec::new(heap);
    for call in calls {
        let answer = make(heap, &mut card, &mut tour, *call)?;
        answers.push(answer)?;
    }
    Ok(answers)
}
