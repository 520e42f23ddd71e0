// Internal to the product: counts of a port's frames in a list of numbers, raised and tested. The four counts of a link, by verdict, stand
// side by side: every 4 numbers in a port record, with the unknown one beside them; every 5 in a lent flat list, with the unknown one at 1280.
#![tactic(auto)]

ghost use Rattle.std.specs.Prelude.{◌≡◌, ◌*◌, ◌≤◌, leb, ltb, length};
ghost use Rattle.model.specs.Units.{full_count};
ghost use Rattle.model.specs.Counters.{risen as risenCount, every_count};
ghost use Rattle.port_refusals.specs.Verdicts.{verdict_of};
ghost use Rattle.counters.specs.View.{view_counts};
ghost use Rattle.counters.specs.Promised.{Within, Tallied};

use port_refusals::Verdict;
use units::FULL_COUNT;

// One more; a count that is full rises no more.
pub fn risen(count: u64) -> u64
    ensures { result ≡ risenCount count }
{
    if count < FULL_COUNT { count + 1 } else { count }
}

// Of a port record: every count of the first n links, and the unknown one, is below a limit.
pub fn all_below(counts: &[u64], unknown: u64, n: u16, limit: u64) -> bool
    requires { 4 * n ≤ length counts.now }
    ensures { result ≡ every_count (λ count. ltb count limit) n (view_counts n counts.now unknown) }
{
    let links = &counts[..4 * usize::from(n)];
    links.iter().all(|&count| count < limit) && unknown < limit
}

// Of a port record: they are at most full.
pub fn fit(counts: &[u64], unknown: u64, n: u16) -> bool
    requires { 4 * n ≤ length counts.now }
    ensures { result ≡ every_count (λ count. leb count full_count) n (view_counts n counts.now unknown) }
{
    all_below(counts, unknown, n, FULL_COUNT + 1)
}

// In a lent flat list: a frame more of the link at a place, by its verdict, or of an unknown number.
pub fn tally(tallies: &mut [u64], place: Option<usize>, verdict: Verdict)
    requires { (length tallies.old ≡ 1281) × Within 256 place }
    ensures { Tallied place (verdict_of verdict) tallies.old tallies.new }
{
    let Some(i) = place else {
        tallies[1280] = risen(tallies[1280]);
        return;
    };
    let at = 5 * i + verdict.number() as usize;
    tallies[at] = risen(tallies[at]);
}
