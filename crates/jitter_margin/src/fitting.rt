// The jitters that fit: those below the first that does not.
ghost use Rattle.std.specs.Prelude.{◌≡◌, ◌<◌, get_or};
ghost use Rattle.jitter_margin.specs.Fitting.{record_with, Counted};

use table::Table;
use table::passing::Passing;
use units::GREATEST_JITTER;

// The jitters from 0 on.
const JITTERS: u32 = GREATEST_JITTER + 1;

fn with_jitter(t: Table, i: usize, jitter: u32) -> Table
    requires { i < 256 }
    ensures { result ≡ record_with t i jitter }
{
    let mut u = t;
    u.links[i].jitter = jitter;
    u
}

// How many of the jitters 0 to 125,000 fit, by halving: all below low do, none from high on does.
pub(crate) fn how_many(t: Passing, i: usize) -> u32
    requires { i < t.table.count }
    ensures { Counted t.table (get_or t.table.numbers i 0) result }
{
    let mut low: u32 = 0;
    let mut high = JITTERS;
    // No index is counted: each turn halves what is left, and no slice is searched, so that std's searches don't serve.
    while low < high {
        let half = low + (high - low) / 2;
        let u = with_jitter(t.table, i, half);
        if bounds::sizes::suffice(u) {
            low = half + 1;
        } else {
            high = half;
        }
    }
    low
}
