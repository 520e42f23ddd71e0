// Whether the sizes of a table suffice.
ghost use Rattle.std.specs.Prelude.{◌≡◌};
ghost use Rattle.model.specs.JitterMargin.{sizes_suffice};
ghost use Rattle.table.specs.View.{view_table};

use crate::limits;
use table::Table;
use table::passing::Passing;

// Whether a table has bounds, each at most the table's size for it; not where the table is refused.
// A loop beside that of `bounds_of`, not a test of what it answers: it ends at the first size that is too small.
pub fn suffice(t: Table) -> bool
    ensures { result ≡ sizes_suffice (view_table t) }
{
    let Ok(passing) = Passing::of(t) else {
        return false;
    };
    for p in 0..8u8 {
        let Some(l) = limits::limits_of(passing, p) else {
            return false;
        };
        if passing.table.sizes[usize::from(p)] < l.bound {
            return false;
        }
    }
    true
}
