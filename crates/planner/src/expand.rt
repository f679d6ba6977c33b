// One layer of labels on: each label moves by rest and by one other status, and a frontier keeps what is needed.
ghost use Rattle.std.specs.Prelude.{◌≡◌, ℕ, ◌+◌, ◌*◌, ◌<◌, ◌≤◌, List, ◌++◌, length, take, slice_index, slice_index_or};
ghost use Rattle.frontier.specs.Cover.{SmallestCover};
ghost use Rattle.frontier.specs.Places.{all, kept};
ghost use Rattle.planning.specs.declared.Label.{Label};
ghost use Rattle.planning.specs.Plain.{Plainly};
ghost use Rattle.planning.specs.Moves.{serves_all};
ghost use Rattle.planner.specs.Candidates.{live, layer, second};
ghost use Rattle.planner.specs.Finding.{Found};

use crate::moves::{Moment, is_alive};
use crate::trail::note;
use duty::Duty;
use frontier::Frontier;
use planning::{Label, Stop};
use rules::book::{Figures, RuleBook};

// Offers the label that was moved to, if there is one and it is alive. The quarter is no moment's: it may be the one after the horizon.
pub(crate) fn offer_live<R: Figures>(
    frontier: &mut Frontier<'_, Label<R>>,
    stops: &[Stop],
    q: usize,
    made: Option<Label<R>>,
)
    requires { length (kept frontier.old) < length (all frontier.old) }
    ensures smallest { (seen : List (Label R)) → SmallestCover (Plainly R.Figures.better) (kept frontier.old) seen → SmallestCover (Plainly R.Figures.better) (kept frontier.new) (seen ++ live stops.now q made) }
    ensures more { length (kept frontier.new) ≤ length (kept frontier.old) + 1 }
    ensures room { length (all frontier.new) ≡ length (all frontier.old) }
    ensures lender { frontier.new.places.ghost_name ≡ frontier.old.places.ghost_name }
{
    if let Some(label) = made {
        if is_alive(stops, q, &label) {
            let _ = frontier.offer(label);
        }
    }
}

// The status to try beside rest: work where no driving is left, else driving.
fn second_duty<R: Copy + Drop>(a: &Label<R>) -> Duty
    ensures { result ≡ second a.now }
{
    if a.drive == 0 {
        Duty::Work
    } else {
        Duty::Drive
    }
}

// A smallest cover of what the labels move to, kept at the front of `places`. The sheet holds plain rows, so their being sound is asked, here and below.
pub(crate) fn expand<'a, B: RuleBook>(
    moment: Moment<'_>,
    labels: &[Label<B::Row>],
    places: &'a mut [Label<B::Row>],
) -> &'a [Label<B::Row>]
    requires few { length labels.now ≤ 4096 }
    requires room { 2 * length labels.now ≤ length places.old }
    requires sound { (j : ℕ) (d : Label B.Row) → j < length labels.now → B.RuleBook.sound (slice_index_or labels.now j d).row }
    ensures smallest { SmallestCover (Plainly B.Row.Figures.better) result.now (layer B.RuleBook.names B.RuleBook.after moment.entry.stops.now moment.entry.quarter 0 labels.now) }
    ensures few { length result.now ≤ 2 * length labels.now }
{
    let mut frontier = Frontier::new(places);
    for (j, label) in labels.iter().enumerate() {
        let rested = moment.attempt::<B>(note(j, Duty::Rest), label, Duty::Rest);
        offer_live(&mut frontier, moment.stops, moment.quarter + 1, rested);
        let duty = second_duty(label);
        let moved = moment.attempt::<B>(note(j, duty), label, duty);
        offer_live(&mut frontier, moment.stops, moment.quarter + 1, moved);
    }
    let kept = frontier.count();
    places.split_at(kept).0
}

// The first of the labels from which work serves the last quarter of the tour.
pub(crate) fn find_serving<B: RuleBook>(
    moment: Moment<'_>,
    labels: &[Label<B::Row>],
) -> Option<usize>
    requires { (j : ℕ) (d : Label B.Row) → j < length labels.now → B.RuleBook.sound (slice_index_or labels.now j d).row }
    ensures { Found (serves_all B.RuleBook.names moment.entry.stops.now moment.entry.quarter) labels.now (length labels.now) result }
{
    labels
        .iter()
        .position(|label| moment.serves_all::<B>(label))
}

// Writes where each of the labels came from.
pub(crate) fn note_layer<R: Copy + Drop>(trail: &mut [u16], labels: &[Label<R>])
    requires { length labels.now ≤ length trail.old }
    ensures { (j : ℕ) (d : Label R) → j < length labels.now → slice_index trail.new j ≡ (slice_index_or labels.now j d).from }
{
    // By place: over `iter_mut().zip(labels)` the proof did not close, since nothing is known then of what is written.
    for (j, label) in labels.iter().enumerate() {
        trail[j] = label.from;
    }
}
