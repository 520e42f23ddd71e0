// The longest busy period of a priority and of those before it: the hold.
ghost use Rattle.std.specs.Prelude.{◌≡◌, ◌≤◌};
ghost use Rattle.model.specs.Bounds.{blocking};
ghost use Rattle.table.specs.View.{view_table};
ghost use Rattle.bounds.specs.Limits.{Climbed};

use bounds_arrivals::Priorities;
use table::passing::Passing;

// b: what a frame of a later priority, already on its way, has still to send.
pub(crate) fn blocking_of(t: Passing, p: u8) -> u64
    requires { p ≤ 7 }
    ensures { (result ≡ blocking (view_table t.table) p) × (result ≤ 1538) }
{
    let later = Priorities {
        low: p + 1,
        high: 7,
    };
    bounds_arrivals::longest(t, later).saturating_sub(1)
}

// The hold, or none, by climbing: b + A_up(w - 1) never passes the smallest hold.
pub(crate) fn hold_of(t: Passing, p: u8, b: u64) -> Option<u64>
    requires { (b ≡ blocking (view_table t.table) p) × (b ≤ 1538) }
    ensures { Climbed (view_table t.table) p result }
{
    let mut last: u64 = 0;
    // No index is counted: the climb goes on from what was found, and no `for` is plainer.
    while last < 65536 {
        let n = b + bounds_arrivals::arrivals(t, Priorities::up_to(p), last);
        if n <= last + 1 {
            return Some(last + 1);
        }
        last = n - 1;
    }
    None
}
