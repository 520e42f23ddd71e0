// Internal to the product: arrival curves, the most that links of some priorities put on the lines in a window of w ticks.
#![tactic(auto)]

ghost use Rattle.std.specs.Prelude.{◌≡◌, ℕ, ◌*◌, ◌≤◌, ◌<◌, get_or};
ghost use Rattle.model.specs.Link.{greatest_over};
ghost use Rattle.model.specs.Arrival.{frame_curve, arrival_curve};
ghost use Rattle.table.specs.View.{view_link, view_links};
ghost use Rattle.bounds_arrivals.specs.Loads.{within, between, less, Loaded, flow};

use table::VirtualLink;
use table::passing::Passing;
use units::LEAST_BAG;

// The priorities low to high.
#[derive(Clone, Copy, Debug, PartialEq, Eq)]
pub struct Priorities {
    pub low: u8,
    pub high: u8,
}

impl Priorities {
    pub fn one(p: u8) -> Priorities
        ensures { result ≡ record { low = p; high = p } }
    {
        Priorities { low: p, high: p }
    }

    pub fn up_to(p: u8) -> Priorities
        ensures { result ≡ record { low = 0; high = p } }
    {
        Priorities { low: 0, high: p }
    }

    // Whether a link is of one of them.
    fn has(self, l: VirtualLink) -> bool
        ensures { result ≡ within self.low self.high l.priority }
    {
        self.low <= l.priority && l.priority <= self.high
    }
}

// For each line: the bytes of its members' frames, and the longest frame of a member.
#[derive(Clone, Copy)]
pub struct Loads {
    pub sums: [u64; 24],
    pub tops: [u64; 24],
}

// w is a number with a condition, here and below: a type of windows would wrap each sum and difference of ticks, and is no plainer.
// N_v(w). The BAG is the least times 2 to the power of the code: division by a constant and a shift are faster.
pub fn frames(l: VirtualLink, w: u64) -> u64
    requires { (l.code ≤ 7) × (l.jitter ≤ 125000) × (w ≤ 65536) }
    ensures { ((n : ℕ) → result ≡ frame_curve (view_link n l) w) × (result ≤ 16) }
{
    1 + ((w + u64::from(l.jitter)) / LEAST_BAG >> l.code)
}

// The greatest length of the links of some priorities.
pub fn longest(t: Passing, of: Priorities) -> u64
    ensures { (result ≡ greatest_over (between of.low of.high) (λ v. v.greatest) (view_links t.table)) × (result ≤ 1538) }
{
    let mut top: u64 = 0;
    for &l in t.links() {
        if of.has(l) {
            top = top.max(u64::from(l.greatest));
        }
    }
    top
}

// The loads of the lines by the links of some priorities in a window of w ticks. A frame counts for its greatest length
// less what is cut off it.
pub fn loads_of(t: Passing, w: u64, of: Priorities, cut: u64) -> Loads
    requires { w ≤ 65536 }
    ensures { Loaded (less cut) (between of.low of.high) (view_links t.table) w result }
{
    let mut sums = [0u64; 24];
    let mut tops = [0u64; 24];
    for &l in t.links() {
        if of.has(l) {
            let k = usize::from(l.line);
            let wire = u64::from(l.greatest);
            let kept = wire.saturating_sub(cut);
            sums[k] += kept * frames(l, w);
            tops[k] = tops[k].max(kept);
        }
    }
    Loads { sums, tops }
}

// The sum over the lines of the smaller of the frames and of what w ticks can bring.
pub fn total(l: Loads, lines: usize, w: u64) -> u64
    requires { (lines ≤ 24) × (w ≤ 65536) × ((k : ℕ) → k < 24 → get_or l.tops k 0 ≤ 1538) }
    ensures { (result ≡ flow l lines w) × (result ≤ 67074 * lines) }
{
    let mut sum: u64 = 0;
    for k in 0..lines {
        sum += l.sums[k].min(w + l.tops[k]);
    }
    sum
}

// A(w) of the links of some priorities, in wire bytes.
pub fn arrivals(t: Passing, of: Priorities, w: u64) -> u64
    requires { w ≤ 65536 }
    ensures { (result ≡ arrival_curve (less 0) (between of.low of.high) t.table.lines (view_links t.table) w) × (result ≤ 67074 * 24) }
{
    let l = loads_of(t, w, of, 0);
    total(l, usize::from(t.table.lines), w)
}
