// The plan: the earliest end of a lawful schedule that serves the tour.
ghost use Rattle.std.specs.Prelude.{◌≡◌, ℕ, ◌+◌, ◌*◌, ◌<◌, ◌≤◌, length, replicate};
ghost use Rattle.planner.specs.History.{span as span_between};
ghost use Rattle.planner.specs.OfBooks.{start_label, SolvedFor, PlannedFor};
ghost use Rattle.planner.specs.Plans.{OutputLeft, Left, Sized};
ghost use Rattle.planner.specs.Toured.{stops_of};

use crate::call::Buffers;
use crate::card::DriverCard;
use crate::letters::write_letters;
use crate::search::{End, first_label, search};
use crate::size::Size;
use crate::tour::Tour;
use planning::{Label, Stop};
use rules::book::RuleBook;
use rules::refusal::Refusal;

// The quarters from `begin` to the last possible end of the tour.
fn span_of(stops: &[Stop], begin: usize) -> usize
    ensures { result ≡ span_between stops.now begin }
{
    let last = stops.last().copied().unwrap_or_default();
    (usize::from(last.closes) + usize::from(last.service)).saturating_sub(begin)
}

// Searches, and writes the letters of the schedule that is found to the output.
fn solve<B: RuleBook>(
    card: &DriverCard<B>,
    tour: &Tour,
    size: Size,
    labels: &mut [Label<B::Row>],
    trail: &mut [u16],
    output: &mut [u8],
) -> Result<usize, Refusal>
    requires some_stop { 0 < length (stops_of tour.now) }
    requires sheet { 3 * size.width ≤ length labels.old }
    requires trail_within { size.span * size.width ≤ length trail.old }
    requires room { size.span ≤ length output.old }
    requires horizon { card.now.now + size.span ≤ 2688 }
    ensures value { SolvedFor B.RuleBook B.Row.Figures card.entry.now tour.now size output.new result }
    ensures behind { OutputLeft card.entry.now.now result output.old output.new }
{
    let (front, back) = labels.split_at_mut(size.width);
    let End { quarter, place } = search(card, tour, size, front, back, trail)?;
    write_letters(trail, size.width, quarter, place, output);
    Ok(card.now() + quarter + 1)
}

// The most labels that a sheet can have.
const MOST_LABELS: usize = 12288;

// The labels kept a quarter and the quarters to search, or the first of the refusals that need no search.
pub(crate) fn ready<B: RuleBook>(
    card: &DriverCard<B>,
    tour: &Tour,
    buffers: Buffers,
) -> Result<Size, Refusal>
    ensures { Sized (stops_of tour.now) card.entry.now.now buffers result }
{
    let Buffers {
        labels,
        predecessors,
        output,
    } = buffers;
    let stops = tour.stops();
    if stops.is_empty() {
        return Err(Refusal::NoStop);
    }
    if labels < 3 || labels > MOST_LABELS {
        return Err(Refusal::Sheet);
    }
    let width = labels / 3;
    let span = span_of(stops, card.now());
    if predecessors < width * span {
        return Err(Refusal::Trail);
    }
    if output < span {
        return Err(Refusal::Output);
    }
    Ok(Size { width, span })
}

// The end of the earliest lawful schedule that serves the tour after what is recorded; its letters stand at the front of the
// output. The labels and the predecessors are working buffers.
pub fn plan<B: RuleBook>(
    card: &DriverCard<B>,
    tour: &Tour,
    labels: &mut [Label<B::Row>],
    predecessors: &mut [u16],
    output: &mut [u8],
) -> Result<usize, Refusal>
    ensures value { PlannedFor B.RuleBook B.Row.Figures card.entry.now tour.now (length labels.old) (length predecessors.old) output.new result }
    ensures behind { OutputLeft card.entry.now.now result output.old output.new }
    ensures sheet { Left result labels.old labels.new (replicate (length labels.old) (start_label B.RuleBook card.entry.now tour.now)) }
    ensures trail { Left result predecessors.old predecessors.new (replicate (length predecessors.old) 0) }
{
    let buffers = Buffers {
        labels: labels.len(),
        predecessors: predecessors.len(),
        output: output.len(),
    };
    let size = ready(card, tour, buffers)?;
    let answer = solve(card, tour, size, labels, predecessors, output);
    let first = first_label(tour.stops(), card.row());
    // `fill` asks that the row's clone cannot fail, which generic code does not know.
    labels.fill_with(|| first);
    predecessors.fill(0);
    answer
}
