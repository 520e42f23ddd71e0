// Internal to the product: the greatest backlog of a priority over the windows below its hold, stretch by stretch. In a
// stretch of windows no link's number of frames changes: in it the backlog bends down.
#![tactic(auto)]

ghost use Rattle.std.specs.Prelude.{◌≡◌, ◌+◌, ◌≤◌, ◌<◌};
ghost use Rattle.model.specs.Bounds.{backlog};
ghost use Rattle.table.specs.View.{view_links, view_table};
ghost use Rattle.bounds_arrivals.specs.Loads.{between};
ghost use Rattle.bounds_backlog.specs.Peaks.{Crest, Highest};
ghost use Rattle.bounds_backlog.specs.Stretches.{LinkSteady, Steady, Given, SumsFit, Steep, Stretched, Improved, Raised, backlog_by, backlog_in};

use bounds_arrivals::{Loads, Priorities};
use table::VirtualLink;
use table::passing::Passing;
use units::UNKEPT;

// What the search for the bound of a priority starts from: b, M, and the last window below its hold.
#[derive(Clone, Copy)]
pub struct Search {
    pub priority: u8,
    pub blocking: u64,
    pub longest: u64,
    pub last: u64,
}

// The windows from start to last, with the loads that all of them have in common.
#[derive(Clone, Copy)]
pub struct Stretch {
    pub own: Loads,
    pub up: Loads,
    pub lines: usize,
    pub blocking: u64,
    pub longest: u64,
    pub start: u64,
    pub last: u64,
}

// The greatest backlog so far, and the first window at which it occurs.
#[derive(Clone, Copy, Debug, PartialEq, Eq)]
pub struct Peak {
    pub backlog: u64,
    pub window: u64,
}

// The last window in which the link still has the frames of w, or any other if its priority is above high.
fn link_steady(l: VirtualLink, high: u8, w: u64) -> u64
    requires { (l.code ≤ 7) × (l.jitter ≤ 125000) × (w < 65536) }
    ensures { LinkSteady l high w result }
{
    if high < l.priority {
        return 65535;
    }
    let n = bounds_arrivals::frames(l, w);
    n * table::bag(l.code) - u64::from(l.jitter) - 1
}

// A window up to which no link of priority 0 to high has more frames than in w.
fn steady(t: Passing, w: u64, high: u8) -> u64
    requires { w < 65536 }
    ensures { (w ≤ result) × Steady (between 0 high) (view_links t.table) t.table.count w result }
{
    let mut last: u64 = 65535;
    for &l in t.links() {
        last = last.min(link_steady(l, high, w));
    }
    last
}

// The stretch from w, which ends by the last window.
fn stretch_at(t: Passing, s: Search, w: u64) -> Stretch
    requires { Given (view_table t.table) s × (w ≤ s.last) }
    ensures { Stretched (backlog (view_table t.table) s.priority) w s.last result }
{
    let own = bounds_arrivals::loads_of(t, w, Priorities::one(s.priority), UNKEPT);
    let up = bounds_arrivals::loads_of(t, w, Priorities::up_to(s.priority), 0);
    Stretch {
        own,
        up,
        lines: usize::from(t.table.lines),
        blocking: s.blocking,
        longest: s.longest,
        start: w,
        last: steady(t, w, s.priority).min(s.last),
    }
}

// The smaller of A_p(w) and A_up(w) - max(0, sent - b) + M - 1.
fn backlog_by(s: Stretch, w: u64, sent: u64) -> u64
    requires { SumsFit s × (w ≤ 65536) }
    ensures { result ≡ backlog_by s w sent }
{
    let own = s.own;
    let up = s.up;
    let a = bounds_arrivals::total(own, s.lines, w);
    let u = bounds_arrivals::total(up, s.lines, w);
    let left = u.saturating_sub(sent.saturating_sub(s.blocking));
    a.min(left + s.longest - 1)
}

// The first window of the stretch with its greatest backlog: the backlog bends down, so bisection on its slope finds it.
fn crest(s: Stretch) -> u64
    requires { Steep s }
    ensures { Crest (backlog_in s) s.start s.last result }
{
    let mut low = s.start;
    let mut high = s.last;
    // No index is counted: each turn halves what is left, and no `for` is plainer.
    while low < high {
        let mid = (low + high) / 2;
        let next = mid + 1;
        let here = backlog_by(s, mid, mid);
        let there = backlog_by(s, next, next);
        if here < there {
            low = next;
        } else {
            high = mid;
        }
    }
    low
}

fn raised(best: Peak, v: u64, k: u64) -> Peak
    ensures { Raised best v k result }
{
    if best.backlog < v {
        return Peak {
            backlog: v,
            window: k,
        };
    }
    best
}

// The better of the peak so far and that of the stretch. Most stretches can't pass it: the arrivals at their last window,
// less what had left by their first, are a cap.
fn improved(best: Peak, s: Stretch) -> Peak
    requires { Steep s }
    ensures { Improved s best result }
{
    if backlog_by(s, s.last, s.start) <= best.backlog {
        return best;
    }
    let k = crest(s);
    let v = backlog_by(s, k, k);
    raised(best, v, k)
}

// The greatest backlog of a priority over the windows from 0 to the last, stretch by stretch.
pub fn peak_of(t: Passing, s: Search) -> Peak
    requires { Given (view_table t.table) s }
    ensures { Highest (backlog (view_table t.table) s.priority) (s.last + 1) result.backlog result.window }
{
    let mut best = Peak {
        backlog: 0,
        window: 0,
    };
    let mut w: u64 = 0;
    // No index is counted: w goes on to the next stretch, and no `for` is plainer.
    while w <= s.last {
        let stretch = stretch_at(t, s, w);
        best = improved(best, stretch);
        w = stretch.last + 1;
    }
    best
}
