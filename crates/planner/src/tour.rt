// The tour: up to 16 stops, each within the horizon.
ghost use Rattle.std.specs.Prelude.{◌≡◌, ◌≤◌, length};
ghost use Rattle.planner.specs.Ranges.{AllInRange};

use planning::Stop;

// The first `count` of the stops are the tour's. They lie in fixed memory: a tour is Copy, and to add a stop takes no memory.
#[derive(Clone, Copy)]
pub struct Tour {
    stops: [Stop; 16],
    count: usize,
    ghost places: { length stops ≡ 16 },
    ghost counted: { count ≤ 16 },
    ghost ranged: { AllInRange stops count },
}

// How it is made, beside the struct that it sees the fields of.
mod making;
