// Whether a table has no bounds, by what its links may send together: neither lines nor priorities play a part in that.
ghost use Rattle.std.specs.Prelude.{◌≡◌, ◌≤◌};
ghost use Rattle.model.specs.OverloadCore.{lacks_bounds};
ghost use Rattle.model.specs.Promises.{demand};
ghost use Rattle.table.specs.View.{view_links, view_table};

use table::Table;
use table::passing::Passing;

// The sum of L × N_v(w) over all links.
fn demand_of(t: &Passing, w: u64) -> u64
    requires { w ≤ 65536 }
    ensures { (result ≡ demand (view_links t.now.table) w) × (result ≤ 6299648) }
{
    let mut sum: u64 = 0;
    for &l in t.links() {
        sum += u64::from(l.greatest) * bounds_arrivals::frames(l, w);
    }
    sum
}

// By climbing: what is sent until w is more than every w before it. Not where the table is refused for itself.
pub(crate) fn lacks(t: Table) -> bool
    ensures { result ≡ lacks_bounds (view_table t) }
{
    let Ok(passing) = Passing::of(t) else {
        return false;
    };
    let mut w: u64 = 1;
    // No index is counted: the climb goes on from what was sent, and no `for` is plainer.
    while w <= 65536 {
        let sent = demand_of(&passing, w - 1);
        if sent <= w {
            return false;
        }
        w = sent;
    }
    true
}
