// Links put into a table record.
ghost use Rattle.std.specs.Prelude.{◌≡◌, [], ◌∷◌, ◌++◌, ◌≤◌, ◌<◌, take, drop};
ghost use Rattle.model.specs.OverloadCore.{with_links};
ghost use Rattle.table.specs.View.{view_link, view_links, view_table, record_table};
ghost use Rattle.overload_core.specs.Rows.{Recorded};

use table::{Table, VirtualLink};

// The table without its links.
pub(crate) fn linkless(t: Table) -> Table
    ensures { result ≡ record_table (with_links (view_table t) []) }
{
    let mut r = table::blank();
    let sizes = t.sizes;
    r.lines = t.lines;
    r.sizes = sizes;
    r
}

// One link more.
pub(crate) fn pushed(kept: Table, number: u16, link: VirtualLink) -> Table
    requires { Recorded kept × (kept.count < 256) }
    ensures { result ≡ record_table (with_links (view_table kept) (view_links kept ++ (view_link number link ∷ []))) }
{
    let k = usize::from(kept.count);
    let mut r = kept;
    r.numbers[k] = number;
    r.links[k] = link;
    r.count += 1;
    r
}

// The first k links of one table, and behind them those of another from a place on, with its line count and sizes.
pub(crate) fn joined(front: Table, k: u16, t: Table, from: u16) -> Table
    requires { (k ≤ front.count) × (k ≤ from) × (front.count ≤ 256) × (t.count ≤ 256) }
    ensures { view_table result ≡ with_links (view_table t) (take k (view_links front) ++ drop from (view_links t)) }
{
    let n = usize::from(t.count);
    let sizes = t.sizes;
    let mut numbers = front.numbers;
    let mut links = front.links;
    let mut many = usize::from(k);
    for i in usize::from(from)..n {
        numbers[many] = t.numbers[i];
        links[many] = t.links[i];
        many += 1;
    }
    Table {
        lines: t.lines,
        count: many as u16,
        numbers,
        links,
        sizes,
    }
}
