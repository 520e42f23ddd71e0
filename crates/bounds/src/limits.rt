// Hold, bound and window of one priority.
ghost use Rattle.std.specs.Prelude.{◌≤◌};
ghost use Rattle.table.specs.View.{view_table};
ghost use Rattle.bounds.specs.Limits.{Limited};

use crate::busy;
use bounds_arrivals::Priorities;
use bounds_backlog::Search;
use table::passing::Passing;

#[derive(Clone, Copy, Debug, PartialEq, Eq)]
pub struct Limits {
    pub hold: u32,
    pub bound: u32,
    pub window: u32,
}

// None without a hold.
pub(crate) fn limits_of(t: Passing, p: u8) -> Option<Limits>
    requires { p ≤ 7 }
    ensures { Limited (view_table t.table) p result }
{
    let b = busy::blocking_of(t, p);
    let hold = busy::hold_of(t, p, b)?;
    let m = bounds_arrivals::longest(t, Priorities::one(p));
    if m == 0 {
        return Some(Limits {
            hold: hold as u32,
            bound: 0,
            window: 0,
        });
    }
    let search = Search {
        priority: p,
        blocking: b,
        longest: m,
        last: hold - 1,
    };
    let peak = bounds_backlog::peak_of(t, search);
    Some(Limits {
        hold: hold as u32,
        bound: peak.backlog as u32,
        window: peak.window as u32,
    })
}
