// Internal to the product: a batch of reports to a port that is lent whole, each number in 8 little-endian bytes.
#![tactic(auto)]

ghost use Rattle.std.specs.Prelude.{◌*◌, ◌/◌, ◌≤◌, length};
ghost use Rattle.model.specs.Batch.{reports_in, numbers_in};
ghost use Rattle.table.specs.View.{view_table};
ghost use Rattle.flat_port.specs.Lists.{Stands};
ghost use Rattle.flat_batch.specs.Promised.{batch_of, Ends};
ghost use Rattle.batch_bytes.specs.Promised.{BytesAnswers};

use flat_port::FlatPort;
use report_bytes::{put_numbers, report_at};
use table::Table;
use units::LIST_ROOM;

// One report after the other, each lent as much as is left of the departure list, and no more than all queues hold. How many
// departures were written; None where no report was accepted.
// Beside flat_batch::run: that lends the rest of the list itself, this a local list that it writes as bytes. One for both is no plainer.
pub fn run(
    port: &mut FlatPort,
    table: &Table,
    reports: &[u8],
    answers: &mut [u8],
    list: &mut [u8],
) -> Option<u64>
    requires { Stands (view_table table.now) port.old × (3 * (length reports.now / 40) ≤ length answers.old / 8) }
    ensures { Ends (view_table table.now) port.old (batch_of (view_table table.now) port.old (reports_in (numbers_in reports.now)) (numbers_in list.old)) result port.new × BytesAnswers (batch_of (view_table table.now) port.old (reports_in (numbers_in reports.now)) (numbers_in list.old)) answers.old answers.new list.old list.new }
{
    let n = reports.len() / 40;
    let whole = list.len() / 8;
    let mut room = [0u64; LIST_ROOM];
    let mut written: usize = 0;
    let mut accepted = false;
    for i in 0..n {
        let report = report_at(reports, 40 * i);
        let most = LIST_ROOM.min(whole - 3 * written);
        let outcome = port.report(table, report, &mut room[..most]);
        accepted = flat_batch::still(accepted, outcome);
        let answer = flat_port::numbers(outcome);
        put_numbers(&answer, answers, 24 * i);
        let freed = answer[2] as usize;
        put_numbers(&room[..3 * freed], list, 24 * written);
        written += freed;
    }
    accepted.then_some(written as u64)
}
