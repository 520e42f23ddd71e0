// The handful that breaks a table: links of it that together have no bounds, and have them without any one of them.
#![tactic(auto)]

mod demand;
mod reduction;
mod rows;

ghost use Rattle.std.specs.Prelude.{◌≡◌};
ghost use Rattle.model.specs.OverloadCore.{core, sold_on};
ghost use Rattle.table.specs.View.{view_table};
ghost use Rattle.overload_core.specs.Answer.{core_of, record_core};

use refusal::Refusal;
use table::Table;
use table::passing::Passing;
use units::LINE_CAPACITY;

// The table with what remains of its links when each, in table order, is left out if those still kept have no bounds without it. Or the
// refusal: 3 to 6 or 23 of the table, 26 where it has bounds.
pub fn core_of(t: Table) -> Result<Table, Refusal>
    ensures { core_of result ≡ record_core (core (view_table t)) }
{
    let passing = Passing::of(t)?;
    if !demand::lacks(t) {
        return Err(Refusal::HasBounds);
    }
    Ok(reduction::reduced(passing))
}

// Of what a line carries, the thousandths that the links on it reserve, rounded up. Of any table: a code above 7 counts as 7.
pub fn sold_on(t: Table, line: u8) -> u64
    ensures { result ≡ sold_on (view_table t) line }
{
    let sums = table::checks::reserved(t);
    let capacity = u64::from(LINE_CAPACITY);
    let reserved = u64::from(sums[usize::from(line)]);
    (1000 * reserved + capacity - 1) / capacity
}
