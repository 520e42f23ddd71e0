// Internal to the product: a batch of reports, five numbers each, to a port that is lent whole.
#![tactic(auto)]

ghost use Rattle.std.specs.Prelude.{◌≡◌, ◌+◌, ◌*◌, ◌/◌, ◌≤◌, ◌<◌, length, get_or};
ghost use Rattle.model.specs.Batch.{reports_in};
ghost use Rattle.model.proofs.Reports.{report_at};
ghost use Rattle.table.specs.View.{view_table};
ghost use Rattle.port_refusals.specs.Reports.{view_report};
ghost use Rattle.flat_port.specs.Lists.{Stands};
ghost use Rattle.flat_port.specs.Promised.{answered};
ghost use Rattle.flat_batch.specs.Promised.{Still, batch_of, Ends, Answers};

use flat_port::{Accepted, FlatPort};
use port_refusals::{Report, report_of};
use refusal::Refusal;
use table::Table;

// The report whose five numbers stand from a place on. Of a wait the last three need not be there: they are not read.
fn report_at(reports: &[u64], at: usize) -> Report
    requires { (at + 2 ≤ length reports.now) × (0 < get_or reports.now at 0 → at + 5 ≤ length reports.now) }
    ensures { view_report result ≡ report_at reports.now at }
{
    let form = reports[at];
    let time = reports[at + 1];
    if form == 0 {
        return Report::Wait(time);
    }
    let line = reports[at + 2];
    let number = reports[at + 3];
    let bytes = reports[at + 4];
    report_of(form, time, line, number, bytes)
}

// Whether any was accepted, with one report more.
pub fn still(accepted: bool, outcome: Result<Accepted, Refusal>) -> bool
    ensures { Still accepted (answered outcome).refused result }
{
    accepted || outcome.is_ok()
}

// One report after the other, each lent the rest of the departure list. How many departures were written; None where no
// report was accepted.
#[inline(never)]
pub fn run(
    port: &mut FlatPort,
    table: &Table,
    reports: &[u64],
    answers: &mut [u64],
    list: &mut [u64],
) -> Option<u64>
    requires { Stands (view_table table.now) port.old × (3 * (length reports.now / 5) ≤ length answers.old) }
    ensures { Ends (view_table table.now) port.old (batch_of (view_table table.now) port.old (reports_in reports.now) list.old) result port.new × Answers (batch_of (view_table table.now) port.old (reports_in reports.now) list.old) answers.old answers.new list.old list.new }
{
    let mut written: usize = 0;
    let mut accepted = false;
    let n = reports.len() / 5;
    for i in 0..n {
        let report = report_at(reports, 5 * i);
        let outcome = port.report(table, report, &mut list[3 * written..]);
        accepted = still(accepted, outcome);
        let answer = flat_port::numbers(outcome);
        answers[3 * i..3 * i + 3].copy_from_slice(&answer);
        written += answer[2] as usize;
    }
    accepted.then_some(written as u64)
}
