// What remains of a table that has no bounds.
ghost use Rattle.std.specs.Prelude.{◌≡◌};
ghost use Rattle.model.specs.OverloadCore.{with_links, core_links};
ghost use Rattle.table.specs.View.{view_table, record_table};

use crate::demand::lacks;
use crate::rows;
use table::Table;
use table::passing::Passing;

// Each link in turn is left out of those kept and those not yet tried, and stays where they have bounds without it.
pub(crate) fn reduced(t: Passing) -> Table
    ensures { result ≡ record_table (with_links (view_table t.table) (core_links (view_table t.table))) }
{
    let mut kept = rows::linkless(t.table);
    for i in 0..t.table.count {
        let k = kept.count;
        let trial = rows::joined(kept, k, t.table, i + 1);
        if !lacks(trial) {
            let at = usize::from(i);
            let link = t.table.links[at];
            let more = rows::pushed(kept, t.table.numbers[at], link);
            kept = more;
        }
    }
    kept
}
