// The writer: the refusals of the table, then 9, then the three kinds of record.
ghost use Rattle.table.specs.View.{view_table};
ghost use Rattle.table_file.specs.Answers.{writing_of, Wrote};

use refusal::Refusal;
use table::Table;

pub(crate) fn write(t: Table, out: &mut [u8]) -> Result<usize, Refusal>
    ensures { Wrote (view_table t) out.old out.new (writing_of result) }
{
    table::check(t)?;
    let at = 8 + 18 * usize::from(t.count);
    if out.len() < at + 36 {
        return Err(Refusal::OutputTooShort);
    }
    table_record_writer::counts_record(out, t.lines, t.count);
    table_record_writer::link_records(out, t);
    table_record_writer::sizes_record(out, at, t.sizes);
    Ok(at + 36)
}
