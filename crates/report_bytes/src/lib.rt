// Internal to the product: reports, answers and departures as numbers in 8 little-endian bytes, and the refusals 19 and 20 of them.
#![tactic(auto)]

ghost use Rattle.std.specs.Prelude.{◌≡◌, ◌&&◌, ◌+◌, ◌*◌, ◌%◌, ◌≤◌, ◌<◌, eqb, length};
ghost use Rattle.model.specs.TableFile.{number_at};
ghost use Rattle.model.specs.Batch.{are_reports, numbers_in, bytes_of, bytes_refusal};
ghost use Rattle.refusal.specs.Numbers.{number_or_0};
ghost use Rattle.little_endian.specs.Output.{laid};
ghost use Rattle.port_refusals.specs.Reports.{view_report};
ghost use Rattle.report_bytes.specs.Reports.{report_in};

use little_endian::LittleEndian;
use port_refusals::{Report, report_of};
use refusal::Refusal;

// Whether the bytes are a multiple of 40, and each form is known.
// Beside port_batch's of numbers: one for both would take a closure that reads, and tell its loop by that closure's clauses.
fn are_reports(reports: &[u8]) -> bool
    ensures { result ≡ (eqb (length reports.now % 40) 0 && are_reports (numbers_in reports.now)) }
{
    if reports.len() % 40 != 0 {
        return false;
    }
    let n = reports.len() / 40;
    for i in 0..n {
        if 1 < u64::read_within(reports, 40 * i) {
            return false;
        }
    }
    true
}

// 19, or 20 where the answers' room is shorter than three numbers a report.
pub fn check(reports: &[u8], room: usize) -> Result<(), Refusal>
    ensures { number_or_0 result ≡ bytes_refusal reports.now room }
{
    if !are_reports(reports) {
        return Err(Refusal::NotReports);
    }
    if room / 8 < 3 * (reports.len() / 40) {
        return Err(Refusal::AnswersTooShort);
    }
    Ok(())
}

// The report whose five numbers stand from a place on. Of a wait the last three need not be there: they are not read.
pub fn report_at(reports: &[u8], at: usize) -> Report
    requires { (at + 16 ≤ length reports.now) × (0 < number_at at 8 reports.now → at + 40 ≤ length reports.now) }
    ensures { view_report result ≡ report_in reports.now at }
{
    let form = u64::read_within(reports, at);
    let time = u64::read_within(reports, at + 8);
    if form == 0 {
        return Report::Wait(time);
    }
    let line = u64::read_within(reports, at + 16);
    let number = u64::read_within(reports, at + 24);
    let bytes = u64::read_within(reports, at + 32);
    report_of(form, time, line, number, bytes)
}

// Numbers, 8 bytes each, from a place on.
pub fn put_numbers(numbers: &[u64], out: &mut [u8], at: usize)
    requires { at + 8 * length numbers.now ≤ length out.old }
    ensures { out.new ≡ laid at (bytes_of numbers.now) out.old }
{
    for i in 0..numbers.len() {
        numbers[i].write(out, at + 8 * i);
    }
}
