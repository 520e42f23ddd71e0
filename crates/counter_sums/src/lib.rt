// Internal to the product: the counts of a port added up: each link's sum, and the grand total where there is one.
#![tactic(auto)]

ghost use Rattle.std.specs.Prelude.{◌≡◌, true, ℕ, ◌≤◌, ◌<◌, Ok, length};
ghost use Rattle.model.specs.Basics.{sum_to};
ghost use Rattle.model.specs.Units.{full_count};
ghost use Rattle.model.specs.Counters.{verdicts};
ghost use Rattle.model.specs.Sums.{sums_if};
ghost use Rattle.counters.specs.View.{view_counts};
ghost use Rattle.counter_sums.specs.View.{answered, padded};
ghost use Rattle.counter_sums.specs.Adding.{count_in, Few};

use units::FULL_COUNT;

// The sum of each link's four counts, 0 behind the table's count; and the grand total, unknown numbers included, if no count is full.
#[derive(Clone, Copy, Debug, PartialEq, Eq)]
pub struct Sums {
    pub sums: [u64; 256],
    pub total: Option<u64>,
}

// The four counts of the link at a place.
fn link_sum(counts: &[u64], i: usize) -> u64
    requires { (length counts.now ≡ 1024) × (i < 256) × ((v : ℕ) → v < verdicts → count_in counts.now i v ≤ full_count) }
    ensures { result ≡ sum_to (count_in counts.now i) verdicts }
{
    counts[4 * i..4 * i + 4].iter().sum()
}

// Of the first n links, whose counts are at most full.
pub fn sums_of_counts(counts: &[u64], unknown: u64, n: u16) -> Sums
    requires { Few counts.now unknown n }
    ensures { answered (Ok result) ≡ padded (sums_if true n (view_counts n counts.now unknown)) }
{
    let mut sums = [0u64; 256];
    let mut total = unknown;
    for i in 0..usize::from(n) {
        let sum = link_sum(counts, i);
        sums[i] = sum;
        total += sum;
    }
    let none_full = counters::all_below(counts, unknown, n, FULL_COUNT);
    Sums {
        sums,
        total: none_full.then_some(total),
    }
}
