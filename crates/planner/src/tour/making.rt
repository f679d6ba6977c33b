// Making a tour: stops are put last and taken off again.
ghost use Rattle.std.specs.Prelude.{◌≡◌, [], Decides};
ghost use Rattle.planner.specs.Ranges.{InRange};
ghost use Rattle.planner.specs.Toured.{stops_of, PutLast, TakenOff};

use super::Tour;
use duty::HORIZON;
use planning::Stop;
use rules::refusal::Refusal;

// The most quarters of driving before a stop, and of its service.
const MOST_DRIVE: u16 = 672;

const MOST_SERVICE: u16 = 32;

fn in_range(stop: Stop) -> bool
    ensures { Decides result (InRange stop) }
{
    stop.drive <= MOST_DRIVE
        && 1 <= stop.service
        && stop.service <= MOST_SERVICE
        && stop.opens <= stop.closes
        && usize::from(stop.closes) + usize::from(stop.service) <= HORIZON
}

impl Tour {
    // A tour with no stop.
    pub fn new() -> Tour
        ensures { stops_of result ≡ [] }
    {
        Tour {
            stops: [Stop::default(); 16],
            count: 0,
        }
    }

    pub fn stops(&self) -> &[Stop]
        ensures { result.now ≡ stops_of self.now }
    {
        &self.stops[0..self.count]
    }

    // Puts a stop last; refused where there are 16 stops, or where a field is out of range.
    pub fn add(&mut self, stop: Stop) -> Result<(), Refusal>
        ensures { PutLast (stops_of self.old) stop (stops_of self.new) result }
    {
        if self.count == self.stops.len() {
            return Err(Refusal::TourFull);
        }
        if !in_range(stop) {
            return Err(Refusal::Field);
        }
        self.stops[self.count] = stop;
        self.count += 1;
        Ok(())
    }

    // Takes the last stop off; refused where there is none.
    pub fn drop_last(&mut self) -> Result<(), Refusal>
        ensures { TakenOff (stops_of self.old) (stops_of self.new) result }
    {
        if self.count == 0 {
            return Err(Refusal::NoStop);
        }
        self.count -= 1;
        Ok(())
    }
}
