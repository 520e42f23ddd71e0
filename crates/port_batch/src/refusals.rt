// The refusals of a batch before its first report; and a record that is not fit, which refuses each report.
ghost use Rattle.std.specs.Prelude.{◌≡◌, ◌*◌, ◌≤◌, length};
ghost use Rattle.model.specs.Batch.{are_reports, batch_refusal, over};
ghost use Rattle.refusal.specs.Numbers.{number_or_0};
ghost use Rattle.port_batch.specs.Promised.{unfit};

use refusal::Refusal;

// Whether the list is of reports, each of form 0 or 1. All of them are looked at before the first is answered.
fn are_reports(reports: &[u64]) -> bool
    ensures { result ≡ are_reports reports.now }
{
    if reports.len() % 5 != 0 {
        return false;
    }
    let n = reports.len() / 5;
    for i in 0..n {
        if 1 < reports[5 * i] {
            return false;
        }
    }
    true
}

// 19, then 20; no product wraps.
pub(crate) fn check(reports: &[u64], room: usize) -> Result<(), Refusal>
    ensures { number_or_0 result ≡ batch_refusal reports.now room }
{
    if !are_reports(reports) {
        return Err(Refusal::NotReports);
    }
    if room / 3 < reports.len() / 5 {
        return Err(Refusal::AnswersTooShort);
    }
    Ok(())
}

// 10 for each of n reports.
pub(crate) fn refuse_each(n: usize, answers: &mut [u64])
    requires { 3 * n ≤ length answers.old }
    ensures { answers.new ≡ over (unfit n) answers.old }
{
    let refused = flat_port::numbers(Err(Refusal::PortNotFit));
    for i in 0..n {
        answers[3 * i..3 * i + 3].copy_from_slice(&refused);
    }
}
