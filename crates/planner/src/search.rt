// The search, a quarter at a time: the labels that are needed, and where each came from.
ghost use Rattle.std.specs.Prelude.{◌≡◌, ℕ, ◌+◌, ◌*◌, ◌<◌, ◌≤◌, [], ◌∷◌, length, take, if◌then◌else◌};
ghost use Rattle.planning.specs.Moves.{label_at};
ghost use Rattle.planner.specs.Candidates.{alive};
ghost use Rattle.planner.specs.OfBooks.{SearchedFor};
ghost use Rattle.planner.specs.Toured.{stops_of};

use crate::card::DriverCard;
use crate::expand::{expand, find_serving, note_layer};
use crate::moves::{Moment, is_alive, stop_at};
use crate::size::Size;
use crate::tour::Tour;
use planning::{Label, Stop};
use rules::book::RuleBook;
use rules::refusal::Refusal;

// Where a schedule ends: its last quarter, counted from 0 at the card's, and the place of the label that works it.
#[derive(Clone, Copy)]
pub(crate) struct End {
    pub(crate) quarter: usize,
    pub(crate) place: usize,
}

// The label at the beginning of the tour.
pub(crate) fn first_label<R: Copy + Drop>(stops: &[Stop], row: R) -> Label<R>
    ensures { result ≡ label_at stops.now 0 0 row }
{
    let stop = stop_at(stops, 0);
    Label {
        stop: 0,
        drive: stop.drive,
        service: stop.service,
        from: 0,
        row,
    }
}

// The labels before the first quarter: the one at the beginning of the tour, if it is alive.
fn place_first<R: Copy + Drop>(
    front: &mut [Label<R>],
    stops: &[Stop],
    begin: usize,
    row: R,
) -> usize
    requires { 1 ≤ length front.old }
    ensures labels { take result front.new ≡ (if alive stops.now begin (label_at stops.now 0 0 row) then label_at stops.now 0 0 row ∷ [] else []) }
    ensures few { result ≤ 1 }
{
    let label = first_label(stops, row);
    if is_alive(stops, begin, &label) {
        front[0] = label;
        1
    } else {
        0
    }
}

// Goes on from quarter to quarter, with the labels of one quarter in `front` and those of the next in `back`.
pub(crate) fn search<B: RuleBook>(
    card: &DriverCard<B>,
    tour: &Tour,
    size: Size,
    front: &mut [Label<B::Row>],
    back: &mut [Label<B::Row>],
    trail: &mut [u16],
) -> Result<End, Refusal>
    requires some_stop { 0 < length (stops_of tour.now) }
    requires sheet { (length front.old ≡ size.width) × (2 * size.width ≤ length back.old) }
    requires trail_within { size.span * size.width ≤ length trail.old }
    requires horizon { card.now.now + size.span ≤ 2688 }
    ensures { SearchedFor B.RuleBook B.Row.Figures card.entry.now tour.now size trail.new result }
{
    let Size { width, span } = size;
    let stops = tour.stops();
    let mut count = place_first(front, stops, card.now(), card.row());
    for t in 0..span {
        let quarter = card.now() + t;
        let moment = Moment { stops, quarter };
        // The kept of the lent places. As `&front[0..count]` the check has no proof of it, the row of a label being a book's.
        let (labels, _) = front.split_at(count);
        if let Some(place) = find_serving::<B>(moment, labels) {
            return Ok(End { quarter: t, place });
        }
        if t + 1 == span {
            return Err(Refusal::NoSchedule);
        }
        let next = expand::<B>(moment, labels, back);
        if next.len() > width {
            return Err(Refusal::Labels);
        }
        count = next.len();
        front[0..count].copy_from_slice(next);
        note_layer(&mut trail[t * width..t * width + count], next);
    }
    Err(Refusal::NoSchedule)
}
