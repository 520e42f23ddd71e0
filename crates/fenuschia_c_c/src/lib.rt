// The exports of the C interface, include/fenuschia.h: each calls the function of its name in fenuschia_c.
#![tactic(auto)]

ghost use Rattle.std.specs.Prelude.{◌≡◌};
ghost use Rattle.model.specs.Batch.{batch_file};
ghost use Rattle.model.specs.TableFile.{read_table};
ghost use Rattle.fenuschia_c.specs.Copied.{Copied};
ghost use Rattle.fenuschia_c.specs.Reported.{Reported};
ghost use Rattle.fenuschia_c.specs.Sized.{sizing_file, Sized};

use fenuschia_c::{batch, file as files, sizing};

// 0, or the number under which the file is refused: 1 to 7 or 23.
#[unsafe(no_mangle)]
pub extern "C" fn fenuschia_read(file: &[u8]) -> u32
    ensures { result ≡ (read_table file.now).refused }
{
    files::fenuschia_read(file)
}

// Reads the file and writes its table to the output: 44 + 18 × n bytes, as many as the file has.
// Answers 0, or the number of the refusal, 1 to 7 or 23 of the reader or 9 of the writer, and then writes to no byte.
#[unsafe(no_mangle)]
pub extern "C" fn fenuschia_write(file: &[u8], out: &mut [u8]) -> u32
    ensures { Copied file.now out.old out.new result }
{
    files::fenuschia_write(file, out)
}

// Writes 32 numbers to the output: eight bounds, eight holds, eight windows, eight sizes, priority 0 first; what is behind them stays.
// Answers 0, or 1 to 7 or 23 of the reader, 8 if the table has no bounds, 9 if the output is shorter, and then writes to no byte.
#[unsafe(no_mangle)]
pub extern "C" fn fenuschia_sizing(file: &[u8], out: &mut [u8]) -> u32
    ensures { Sized (sizing_file file.now out.old) result out.new }
{
    sizing::fenuschia_sizing(file, out)
}

// The reports, five numbers each, one after the other to the fresh port of the file's table: three numbers each to the
// answers, three for each departure to the departures. Answers 0, or 1 to 7 or 23 of the reader, 19 or 20, and then writes to no byte.
#[unsafe(no_mangle)]
pub extern "C" fn fenuschia_batch(
    file: &[u8],
    reports: &[u8],
    answers: &mut [u8],
    departures: &mut [u8],
) -> u32
    ensures { Reported (batch_file file.now reports.now answers.old departures.old) result answers.new departures.new }
{
    batch::fenuschia_batch(file, reports, answers, departures)
}
