// One quarter on from a label, as the book and the tour allow it.
ghost use Rattle.std.specs.Prelude.{◌≡◌, ◌<◌, is_some, if◌then◌else◌, Some, None};
ghost use Rattle.duty.specs.declared.Duty.TheVariants.{Work};
ghost use Rattle.planning.specs.Labels.{stop_at};
ghost use Rattle.planning.specs.Moves.{begun, ready, lead, move, serves_all};
ghost use Rattle.planner.specs.Candidates.{alive};

use duty::Duty;
use planning::{Label, Stop};
use rules::book::RuleBook;

// The stop of a number, and one that asks for nothing where there is none.
pub(crate) fn stop_at(stops: &[Stop], i: usize) -> Stop
    ensures { result ≡ stop_at stops.now i }
{
    stops.get(i).copied().unwrap_or_default()
}

// Whether the service of the current stop has begun.
pub(crate) fn is_begun<R: Copy + Drop>(stops: &[Stop], a: &Label<R>) -> bool
    ensures { result ≡ begun stops.now a.now }
{
    a.service < stop_at(stops, a.stop).service
}

// Whether the service has begun, or can still begin by its close. The quarter is no moment's: it may be the one after the horizon.
pub(crate) fn is_alive<R: Copy + Drop>(stops: &[Stop], q: usize, a: &Label<R>) -> bool
    ensures { result ≡ alive stops.now q a.now }
{
    let closes = stop_at(stops, a.stop).closes;
    is_begun(stops, a) || (a.drive <= closes && q <= usize::from(closes - a.drive))
}

// A quarter of the search, and the stops of the tour.
#[derive(Clone, Copy)]
pub(crate) struct Moment<'a> {
    pub(crate) stops: &'a [Stop],
    pub(crate) quarter: usize,
    ghost early: { quarter < 2688 },
}

// A label is a plain row by the rule of the sheet, so what takes one asks that its row is sound.
impl Moment<'_> {
    // Whether work may stand here.
    fn is_ready<R: Copy + Drop>(self, a: &Label<R>) -> bool
        ensures { result ≡ ready self.entry.stops.now self.entry.quarter a.now }
    {
        let stop = stop_at(self.stops, a.stop);
        let in_window = usize::from(stop.opens) <= self.quarter
            && self.quarter <= usize::from(stop.closes);
        a.drive == 0 && (is_begun(self.stops, a) || in_window)
    }

    // Where work leads that the book allows: one quarter less of the service, or on to the next stop.
    fn serve<R: Copy + Drop>(self, from: u16, a: &Label<R>, row: R) -> Option<Label<R>>
        ensures { result ≡ lead self.entry.stops.now self.entry.quarter from a.now row Work }
    {
        if !self.is_ready(a) {
            return None;
        }
        if a.service > 1 {
            let service = a.service - 1;
            return Some(Label {
                service,
                from,
                row,
                ..*a
            });
        }
        if a.stop >= self.stops.len() || a.stop + 1 >= self.stops.len() {
            return None;
        }
        let next = stop_at(self.stops, a.stop + 1);
        Some(Label {
            stop: a.stop + 1,
            drive: next.drive,
            service: next.service,
            from,
            row,
        })
    }

    // Where a status that the book allows leads, `row` being the row after it.
    fn follow<R: Copy + Drop>(self, from: u16, a: &Label<R>, row: R, duty: Duty) -> Option<Label<R>>
        ensures { result ≡ lead self.entry.stops.now self.entry.quarter from a.now row duty }
    {
        match duty {
            Duty::Rest if !is_begun(self.stops, a) => Some(Label { from, row, ..*a }),
            Duty::Drive if !is_begun(self.stops, a) && a.drive > 0 => {
                let drive = a.drive - 1;
                Some(Label {
                    drive,
                    from,
                    row,
                    ..*a
                })
            }
            Duty::Work => self.serve(from, a, row),
            Duty::Rest | Duty::Drive => None,
        }
    }

    // The row after the status, where the book allows it.
    fn after<B: RuleBook>(self, row: &B::Row, duty: Duty) -> Option<B::Row>
        requires { B.RuleBook.sound row.now }
        ensures { result ≡ (if is_some (B.RuleBook.names row.now self.entry.quarter duty) then None else Some (B.RuleBook.after row.now self.entry.quarter duty)) }
    {
        let mut state = B::remake(row);
        if state.verdict(self.quarter, duty).is_some() {
            return None;
        }
        state.step(self.quarter, duty);
        Some(state.row())
    }

    // The label after the status, if there is one, with `from` as it is noted.
    pub(crate) fn attempt<B: RuleBook>(
        self,
        from: u16,
        a: &Label<B::Row>,
        duty: Duty,
    ) -> Option<Label<B::Row>>
        requires { B.RuleBook.sound a.now.row }
        ensures { result ≡ move B.RuleBook.names B.RuleBook.after self.entry.stops.now self.entry.quarter from a.now duty }
    {
        let row = self.after::<B>(&a.row, duty)?;
        self.follow(from, a, row, duty)
    }

    // Whether work here serves the last quarter of the tour.
    pub(crate) fn serves_all<B: RuleBook>(self, a: &Label<B::Row>) -> bool
        requires { B.RuleBook.sound a.now.row }
        ensures { result ≡ serves_all B.RuleBook.names self.entry.stops.now self.entry.quarter a.now }
    {
        self.is_ready(a)
            && a.service == 1
            && a.stop < self.stops.len()
            && a.stop + 1 == self.stops.len()
            && self.after::<B>(&a.row, Duty::Work).is_some()
    }
}
