// The next switch on the way: the table for the port that is fed by this one.
#![tactic(auto)]

mod rows;

ghost use Rattle.std.specs.Prelude.{◌≡◌};
ghost use Rattle.model.specs.NextTable.{line_refusal, next};
ghost use Rattle.refusal.specs.Numbers.{number_or_0};
ghost use Rattle.table.specs.View.{view_table};
ghost use Rattle.tandem.specs.Answer.{next_of, record_next};

use refusal::Refusal;
use table::Table;

// 22 where the chosen line is not below the new line count, then 3 where that is outside 1 to 24.
pub fn check_line(line: u64, lines: u64) -> Result<(), Refusal>
    ensures { number_or_0 result ≡ line_refusal line lines }
{
    if lines <= line {
        return Err(Refusal::LineBeyondCount);
    }
    if 24 < lines {
        return Err(Refusal::CountOutOfRange);
    }
    Ok(())
}

// The table of the port that this one feeds by a chosen line of so many: each link on that line, its jitter larger by its
// priority's hold less its least length; with sizes 0, which the caller sets.
// Or the refusal: 22, 3; those of the table and 8; 21 where a jitter is too large, and 23.
pub fn next_table(t: Table, line: u64, lines: u64) -> Result<Table, Refusal>
    ensures { next_of result ≡ record_next (next (view_table t) line lines) }
{
    check_line(line, lines)?;
    let sized = bounds::bounds_of(t)?;
    rows::next_rows(t, sized.holds, line as u8, lines as u16)
}
