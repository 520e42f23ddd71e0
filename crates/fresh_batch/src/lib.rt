// Internal to the product: a batch in bytes from the fresh port of a table.
#![tactic(auto)]

ghost use Rattle.std.specs.Prelude.{◌≡◌, ◌*◌, ◌/◌, ◌≤◌, length};
ghost use Rattle.model.specs.Table.{table_refusal};
ghost use Rattle.model.specs.Port.{fresh};
ghost use Rattle.model.specs.Batch.{reports_in, numbers_in, batch};
ghost use Rattle.table.specs.View.{view_table};
ghost use Rattle.batch_bytes.specs.Promised.{BytesAnswers};

use flat_port::{FlatPort, Lists, State};
use flat_queues::Rings;
use table::Table;

pub fn run(t: Table, reports: &[u8], answers: &mut [u8], departures: &mut [u8])
    requires { (table_refusal (view_table t) ≡ 0) × (3 * (length reports.now / 40) ≤ length answers.old / 8) }
    ensures { BytesAnswers (batch (view_table t) (fresh (view_table t)) (reports_in (numbers_in reports.now)) (numbers_in departures.old)) answers.old answers.new departures.old departures.new }
{
    let mut port = FlatPort {
        lists: Lists {
            rings: Rings::empty(),
            ticks: [0; 24],
            accounts: port_policing::full_accounts(t),
            tallies: [0; 1281],
        },
        state: State {
            clock: 0,
            sender: None,
            frames: 0,
        },
    };
    let _ = batch_bytes::run(&mut port, &t, reports, answers, departures);
}
