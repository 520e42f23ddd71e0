// Internal to the product: the filter, which gives the place of the virtual link that a frame is let through for.
#![tactic(auto)]

ghost use Rattle.std.specs.Prelude.{◌≡◌, ℕ};
ghost use Rattle.model.specs.Table.{table_refusal};
ghost use Rattle.model.specs.Report.{admits as admitsFrame};
ghost use Rattle.table.specs.View.{view_link, view_table};
ghost use Rattle.port_filter.specs.Filter.{Admits};

use table::{Table, VirtualLink};

// Whether a link of that number, whatever it is, lets the frame through: it came on the link's line, within its lengths.
pub fn admits(link: VirtualLink, line: u64, length: u64) -> bool
    ensures { (n : ℕ) → result ≡ admitsFrame (view_link n link) line «length» }
{
    if u64::from(link.line) != line {
        return false;
    }
    u64::from(link.least) <= length && length <= u64::from(link.greatest)
}

// The place of the link that has the frame's number, if it lets the frame through.
pub fn admitted(t: Table, line: u64, number: u64, length: u64) -> Option<usize>
    requires { table_refusal (view_table t) ≡ 0 }
    ensures { Admits t line number «length» result }
{
    let i = table_lookup::place_of(&t.numbers, t.count, number)?;
    admits(t.links[i], line, length).then_some(i)
}
