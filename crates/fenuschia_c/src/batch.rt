// A batch of reports to the fresh port of a table file.
ghost use Rattle.model.specs.Batch.{batch_file};
ghost use Rattle.refusal.specs.Numbers.{number_or_0};
ghost use Rattle.fenuschia_c.specs.Reported.{Reported};

use refusal::{Refusal, number_or_0};

fn batch(
    file: &[u8],
    reports: &[u8],
    answers: &mut [u8],
    departures: &mut [u8],
) -> Result<(), Refusal>
    ensures { Reported (batch_file file.now reports.now answers.old departures.old) (number_or_0 result) answers.new departures.new }
{
    let t = table_file::read(file)?;
    report_bytes::check(reports, answers.len())?;
    fresh_batch::run(t, reports, answers, departures);
    Ok(())
}

// The reports, five numbers each, one after the other to the fresh port of the file's table: three numbers each to the
// answers, three for each departure to the departures. Answers 0, or 1 to 7 or 23 of the reader, 19 or 20, and then writes to no byte.
pub fn fenuschia_batch(
    file: &[u8],
    reports: &[u8],
    answers: &mut [u8],
    departures: &mut [u8],
) -> u32
    ensures { Reported (batch_file file.now reports.now answers.old departures.old) result answers.new departures.new }
{
    number_or_0(batch(file, reports, answers, departures))
}
