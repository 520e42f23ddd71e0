// How much jitter is left to a virtual link of a table.
#![tactic(auto)]

mod fitting;

ghost use Rattle.std.specs.Prelude.{◌≡◌, ◌<◌, get_or};
ghost use Rattle.model.specs.JitterMargin.{margin};
ghost use Rattle.table.specs.View.{view_table};
ghost use Rattle.jitter_margin.specs.Answer.{margin_of};

use refusal::Refusal;
use table::Table;
use table::passing::Passing;

// The greatest jitter from 0 to 125,000 with which the table, that jitter put into the link of that number, has bounds, each at most the
// table's size for it. Or the refusal: 3 to 6 or 23 of the table as it is, 24 without such a link, 25 where no jitter fits.
pub fn jitter_left(t: Table, number: u64) -> Result<u32, Refusal>
    ensures { margin_of result ≡ margin (view_table t) number }
{
    let passing = Passing::of(t)?;
    let numbers = &passing.table.numbers;
    let Some(i) = table_lookup::place_of(numbers, passing.table.count, number) else {
        return Err(Refusal::NoSuchLink);
    };
    at_place(passing, i)
}

// That of a link of a table that passes.
fn at_place(t: Passing, i: usize) -> Result<u32, Refusal>
    requires { i < t.table.count }
    ensures { margin_of result ≡ margin (view_table t.table) (get_or t.table.numbers i 0) }
{
    let many = fitting::how_many(t, i);
    if many == 0 {
        return Err(Refusal::NoJitterFits);
    }
    Ok(many - 1)
}
