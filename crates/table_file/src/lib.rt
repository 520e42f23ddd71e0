// The table file: its reader and its writer.
#![tactic(auto)]

mod walk;
mod writer;

ghost use Rattle.std.specs.Prelude.{◌≡◌};
ghost use Rattle.model.specs.TableFile.{read_table};
ghost use Rattle.table.specs.View.{view_table};
ghost use Rattle.table_file.specs.Answers.{reading_of, record_reading, writing_of, Wrote};

use refusal::Refusal;
use table::Table;

// The table of a file, record by record; entries behind its count are blank.
// A refusal, 1 to 7 or 23, stands in place of the table.
pub fn read(file: &[u8]) -> Result<Table, Refusal>
    ensures { reading_of result ≡ record_reading (read_table file.now) }
{
    walk::read(file)
}

// Writes the file of a table into the lent output, and answers its length; bytes behind it stay.
// A refusal, 3 to 6, 23 or 9, writes to no byte.
pub fn write(t: Table, out: &mut [u8]) -> Result<usize, Refusal>
    ensures { Wrote (view_table t) out.old out.new (writing_of result) }
{
    writer::write(t, out)
}
