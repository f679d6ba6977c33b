// The counts of a cycle, one to a day: the day of the next quarter, and the seven days before it.
ghost use Rattle.std.specs.Prelude.{◌≡◌, ℕ, ◌-◌, ◌<◌, ◌≤◌, ◌&&◌, if◌then◌else◌, Decides, nat_lt, slice_index};
ghost use Rattle.books.specs.DayCounts.{NoMore, none_on, total_on, turned, gone_on, next_counts};

use duty::ends_day;

// The quarters of a day, as a count.
const DAY: u8 = duty::DAY as u8;

// Whether no count is larger than the other's of the same day.
pub(super) fn no_more(counts: &[u8; 8], others: &[u8; 8]) -> bool
    ensures { Decides result (NoMore counts.now others.now) }
{
    counts
        .iter()
        .zip(others)
        .all(|(count, other)| count <= other)
}

// The most that can be on duty `back` days back: a whole day where it is counted and the rest is short.
fn most(back: usize, days: u8, short: bool) -> u8
    ensures { result ≡ (if nat_lt back days && short then 96 else 0) }
{
    if back < usize::from(days) && short {
        DAY
    } else {
        0
    }
}

// Whether each count is one that a state can have.
pub(super) fn counts_fit(counts: &[u8; 8], days: u8, short: bool) -> bool
    ensures { Decides result ((i : ℕ) → slice_index counts.now i ≤ (if nat_lt i days && short then 96 else 0)) }
{
    counts
        .iter()
        .enumerate()
        .all(|(back, count)| *count <= most(back, days, short))
}

// The quarters on duty of all the days.
pub(super) fn total(counts: &[u8; 8]) -> u16
    ensures { result ≡ total_on counts.now }
{
    counts.iter().map(|count| u16::from(*count)).sum()
}

// The count of a day that is now `back` days back, from the counts of the day before: 0 for today, and for a day
// that is no longer counted.
fn a_day_on(counts: &[u8; 8], back: usize, days: u8) -> u8
    requires { back < 8 }
    ensures { result ≡ (if nat_lt 0 back && nat_lt back days then slice_index counts.now (back - 1) else 0) }
{
    if 0 < back && back < usize::from(days) {
        counts[back - 1]
    } else {
        0
    }
}

// The counts that the next day begins with.
fn turn(counts: &[u8; 8], today: u8, days: u8) -> [u8; 8]
    ensures { result ≡ turned days today counts.now }
{
    let counts = renew(counts, today);
    std::array::from_fn(|back| a_day_on(&counts, back, days))
}

// The counts within a day, with a new count for today.
fn renew(counts: &[u8; 8], today: u8) -> [u8; 8]
    ensures { result ≡ gone_on today counts.now }
{
    let mut renewed = *counts;
    renewed[0] = today;
    renewed
}

// The counts after a quarter; a rest that is full leaves none. Of a row they and the number of days are all that is asked here.
pub(super) fn count_on(
    counts: &[u8; 8],
    days: u8,
    quarter: usize,
    busy: bool,
    full: bool,
) -> [u8; 8]
    ensures { result ≡ (if full then none_on else next_counts days quarter counts.now busy) }
{
    if full {
        return [0; 8];
    }
    let today = counts[0].saturating_add(u8::from(busy)).min(DAY);
    if ends_day(quarter) {
        turn(counts, today, days)
    } else {
        renew(counts, today)
    }
}
