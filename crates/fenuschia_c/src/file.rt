// The table file: its refusal, and its table written again.
ghost use Rattle.std.specs.Prelude.{◌≡◌};
ghost use Rattle.model.specs.TableFile.{read_table};
ghost use Rattle.refusal.specs.Numbers.{number_or_0};
ghost use Rattle.fenuschia_c.specs.Copied.{Copied};

use refusal::{Refusal, number_or_0};

// 0, or the number under which the file is refused: 1 to 7 or 23.
pub fn fenuschia_read(file: &[u8]) -> u32
    ensures { result ≡ (read_table file.now).refused }
{
    number_or_0(table_file::read(file))
}

fn copy(file: &[u8], out: &mut [u8]) -> Result<usize, Refusal>
    ensures { Copied file.now out.old out.new (number_or_0 result) }
{
    let t = table_file::read(file)?;
    table_file::write(t, out)
}

// Reads the file and writes its table to the output: 44 + 18 × n bytes, as many as the file has.
// Answers 0, or the number of the refusal, 1 to 7 or 23 of the reader or 9 of the writer, and then writes to no byte.
pub fn fenuschia_write(file: &[u8], out: &mut [u8]) -> u32
    ensures { Copied file.now out.old out.new result }
{
    number_or_0(copy(file, out))
}
